// The form in words.
ghost use Rattle.std.specs.Prelude.{Some};
ghost use Rattle.messages.specs.Words.{cancellation_words, form_words, tariff_words};

use crate::form::{Cancellation, Form, Tariff};
use std::fmt;

impl fmt::Display for Tariff {
    ghost output = { λ tariff. Some (tariff_words tariff) };

    fn fmt<W: fmt::Write>(&self, f: &mut fmt::Formatter<W>) -> fmt::Result {
        let table = self.table;
        let day = self.day;
        write!(f, "tariff {table} day {day}")
    }
}

impl fmt::Display for Cancellation {
    ghost output = { λ cancellation. Some (cancellation_words cancellation) };

    fn fmt<W: fmt::Write>(&self, f: &mut fmt::Formatter<W>) -> fmt::Result {
        let cents = self.cents;
        let hire = self.hire;
        write!(f, "cancellation {cents} cents hire {hire}")
    }
}

impl fmt::Display for Form {
    ghost output = { λ form. Some (form_words form) };

    fn fmt<W: fmt::Write>(&self, f: &mut fmt::Formatter<W>) -> fmt::Result {
        match self {
            Form::Tariff(tariff) => write!(f, "{tariff}"),
            Form::Cancellation(cancellation) => write!(f, "{cancellation}"),
        }
    }
}
