//! What holds of every request. The functions do nothing; their contracts are the laws.

ghost use Rattle.requests.specs.Laws.{ReportsArePlain, WhatIsStatedIsInRange};

/// Of every World: what is asked for is a report exactly where it is replied to in plain text.
pub fn reports_are_plain()
    ensures { ReportsArePlain }
{}

/// Of every message, and of every moment that a clock may give: the request that it states is in range.
pub fn what_is_stated_is_in_range()
    ensures { WhatIsStatedIsInRange }
{}
