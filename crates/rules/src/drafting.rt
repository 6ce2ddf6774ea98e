// Drafts stay within their limits.
ghost use Rattle.rules.specs.Drafting.{DraftsFit};

pub fn drafts_stay_within_limits()
    ensures { DraftsFit }
{}
