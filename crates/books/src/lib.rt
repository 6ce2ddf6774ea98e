// The law of the books, over every run of the plain station. The functions do nothing; their contracts say what holds.
// They are parts: no station is offered here.
#![tactic(auto)]

ghost use Rattle.books.specs.Closings.{ClosingsAgree};
ghost use Rattle.books.specs.Interleaving.{Interleaves};
ghost use Rattle.books.specs.Making.{Makes};
ghost use Rattle.books.specs.Systems.{AfterEveryRun, AtEveryStation, NoBoundMet, OneCall};

use messages::message::Message;

// After every list of calls from the opening on.
pub fn books_agree_after_every_run<M: Message>()
    ensures { AfterEveryRun M.Message.reading }
{}

// The law of one call: what a public call hands on.
pub fn one_call_keeps_the_books<M: Message>()
    ensures { OneCall M.Message.reading }
{}

// At any of any number of stations of two kinds of message, with calls interleaved in any way; and every interleaving is such a run.
pub fn books_agree_at_every_station<A: Message, B: Message>()
    ensures law { AtEveryStation A.Message.reading B.Message.reading }
    ensures met { Interleaves A.Message.reading B.Message.reading }
{}

// The premises can be met: every list of calls, made singly or in batches, makes a run.
pub fn every_list_of_calls_makes_a_run<M: Message>()
    ensures { Makes M.Message.reading }
{}

// The bounds that keep the rules total are met by no run.
pub fn no_run_meets_a_bound<M: Message>()
    ensures { NoBoundMet M.Message.reading }
{}

// The four counts that closing leaves.
pub fn closing_counts_agree<M: Message>()
    ensures { ClosingsAgree M.Message.reading }
{}
