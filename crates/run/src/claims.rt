//! What holds of every run, as contracts of functions that do nothing.
ghost use Rattle.std.specs.Prelude.{T};
ghost use Rattle.event.specs.Table.{all};
ghost use Rattle.tlc34058.specs.Painting.{SaysPainted as tlc34058_says_painted};
ghost use Rattle.hd153129.specs.Painting.{SaysPainted as hd153129_says_painted};
ghost use Rattle.run.specs.Demands.{Demand1, Demand2, Demand3};
ghost use Rattle.run.specs.Chips2And3.{Demand3Chips2And3};
ghost use Rattle.run.specs.Chip2.{Demand3Chip2};
ghost use Rattle.run.specs.Marks.{holds, table};
ghost use Rattle.run.specs.Witnesses.{Witnessed};

/// The three demands: a log comes back run to its end or refused by the first number in order; answers, states and snapshots are those of the chip rules; and logs that shuffle the same events are answered alike.
pub fn demands()
    ensures demand_1 { Demand1 }
    ensures demand_2 { Demand2 }
    ensures demand_3 { Demand3 }
{}

/// The third demand for an HD153129 and a TMS34070, none of whose accesses looks at what display events move; and for an HD153129 in the user's words.
pub fn second_and_third_chip()
    ensures chips_2_and_3 { Demand3Chips2And3 }
    ensures chip_2 { Demand3Chip2 }
{}

/// The marked lines M1 to M10 hold of the chip rules.
pub fn marked_lines()
    ensures { T (all holds table) }
{}

/// The third demand isn't empty: pairs of logs that meet its conditions, and pairs that differ where one fails.
pub fn witnessed()
    ensures { Witnessed }
{}

/// A write's answer says what it painted: of a TLC34058 and an HD153129, 1 in byte 1 where it paints, and a number that names what may look different.
pub fn painted()
    ensures tlc34058 { tlc34058_says_painted }
    ensures hd153129 { hd153129_says_painted }
{}
