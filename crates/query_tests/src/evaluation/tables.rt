//! The queries that are asked, and their answers: each cell before a bar, each line before a
//! semicolon.

use Ask::{All, Both, By, Of, Where, WhereBy};
use Rows::{Empty, Five, Greatest, Least, Mixed, Narrow, Nulls, Shared};
use Short::{Absent, Int, Null, Text};
use Sums::{Counted, Fourth, Names, NamesSummed, Numbers, Third};
use adg_base::command::Op;

/// A value written short, `Absent` where the row ends before it.
#[derive(Clone, Copy)]
pub enum Short {
    Absent,
    Null,
    Int(i64),
    Text(&'static str),
}

/// Aggregates of rows of a number and a name.
#[derive(Clone, Copy)]
pub enum Sums {
    Counted,
    /// All four of the numbers.
    Numbers,
    /// The number, the least and the greatest of the names.
    Names,
    /// A sum of names.
    NamesSummed,
    /// The least value of a third column.
    Third,
    /// A sum of names and a sum of a fourth column.
    Fourth,
}

/// A condition: a column, an operator and a literal.
pub type Test = (u8, Op, Short);

/// What is asked: the rows, aggregates of them or of groups of them, with conditions or without.
#[derive(Clone, Copy)]
pub enum Ask {
    All,
    Of(Sums),
    By(u8, Sums),
    Where(Test),
    WhereBy(Test, u8, Sums),
    Both(Test, Test, Sums),
}

/// Which rows are asked.
#[derive(Clone, Copy)]
pub enum Rows {
    Empty,
    Five,
    Mixed,
    Greatest,
    Least,
    Nulls,
    Narrow,
    Shared,
}

/// What a case shows, the rows, the query and its answer.
pub type Case = (&'static str, Rows, Ask, &'static str);

/// Five rows with a missing number and a missing name.
pub static FIVE: [(Short, Short); 5] = [
    (Int(1), Text("a")),
    (Int(2), Text("b")),
    (Int(5), Text("a")),
    (Null, Text("b")),
    (Int(7), Null),
];

/// Names that begin one another, no name among them, and none in its order.
pub static MIXED: [(Short, Short); 8] = [
    (Int(5), Text("b")),
    (Int(1), Text("ab")),
    (Null, Text("a")),
    (Int(7), Null),
    (Int(-3), Text("ab")),
    (Int(1), Text("abc")),
    (Int(5), Text("")),
    (Null, Null),
];

pub static GREATEST: [(Short, Short); 2] = [(Int(i64::MAX), Null), (Int(i64::MAX), Null)];

pub static LEAST: [(Short, Short); 2] = [(Int(i64::MIN), Null), (Int(i64::MIN), Null)];

pub static NULLS: [(Short, Short); 2] = [(Null, Null), (Null, Null)];

pub static NARROW: [(Short, Short); 2] = [(Int(4), Absent), (Int(3), Absent)];

/// Numbers that share a slot with others, and names that do, short and long and of equal length.
pub static SHARED: [(Short, Short); 18] = [
    (Int(5), Text("b")),
    (Int(133), Text("bb")),
    (Int(-5), Text("as")),
    (Null, Null),
    (Int(133), Text("abc")),
    (Int(5), Text("bar")),
    (Int(-133), Text("")),
    (Int(0), Text("@")),
    (Int(128), Text("cad")),
    (Int(i64::MIN), Text("dac")),
    (Int(-5), Text("b")),
    (Int(128), Text("bar")),
    (Null, Text("@")),
    (Int(0), Text("alongernamethatiskeptapart")),
    (Int(5), Text("alongerwordthatiskeptapart")),
    (Int(1), Null),
    (Int(i64::MIN), Text("alongerwordthatiskeptapart")),
    (Int(133), Text("alongernamethatiskeptapart")),
];

pub static CONDITIONS: [Case; 27] = [
    (
        "a name that no row has",
        Narrow,
        Where((2, Op::Ne, Text("a"))),
        "",
    ),
    (
        "number =",
        Mixed,
        Where((1, Op::Eq, Int(1))),
        "1|ab|;1|abc|;",
    ),
    (
        "number <>",
        Mixed,
        Where((1, Op::Ne, Int(1))),
        "5|b|;7|NULL|;-3|ab|;5||;",
    ),
    ("number <", Mixed, Where((1, Op::Lt, Int(1))), "-3|ab|;"),
    (
        "number <=",
        Mixed,
        Where((1, Op::Le, Int(1))),
        "1|ab|;-3|ab|;1|abc|;",
    ),
    (
        "number >",
        Mixed,
        Where((1, Op::Gt, Int(1))),
        "5|b|;7|NULL|;5||;",
    ),
    (
        "number >=",
        Mixed,
        Where((1, Op::Ge, Int(5))),
        "5|b|;7|NULL|;5||;",
    ),
    ("number = Null", Mixed, Where((1, Op::Eq, Null)), ""),
    ("number <> Null", Mixed, Where((1, Op::Ne, Null)), ""),
    ("number < Null", Mixed, Where((1, Op::Lt, Null)), ""),
    ("number <= Null", Mixed, Where((1, Op::Le, Null)), ""),
    ("number > Null", Mixed, Where((1, Op::Gt, Null)), ""),
    ("number >= Null", Mixed, Where((1, Op::Ge, Null)), ""),
    (
        "name =",
        Mixed,
        Where((2, Op::Eq, Text("ab"))),
        "1|ab|;-3|ab|;",
    ),
    (
        "name <>",
        Mixed,
        Where((2, Op::Ne, Text("ab"))),
        "5|b|;NULL|a|;1|abc|;5||;",
    ),
    (
        "name <",
        Mixed,
        Where((2, Op::Lt, Text("ab"))),
        "NULL|a|;5||;",
    ),
    (
        "name <=",
        Mixed,
        Where((2, Op::Le, Text("ab"))),
        "1|ab|;NULL|a|;-3|ab|;5||;",
    ),
    (
        "name >",
        Mixed,
        Where((2, Op::Gt, Text("ab"))),
        "5|b|;1|abc|;",
    ),
    (
        "name >=",
        Mixed,
        Where((2, Op::Ge, Text("ab"))),
        "5|b|;1|ab|;-3|ab|;1|abc|;",
    ),
    ("name = Null", Mixed, Where((2, Op::Eq, Null)), ""),
    ("name <> Null", Mixed, Where((2, Op::Ne, Null)), ""),
    ("name < Null", Mixed, Where((2, Op::Lt, Null)), ""),
    ("name <= Null", Mixed, Where((2, Op::Le, Null)), ""),
    ("name > Null", Mixed, Where((2, Op::Gt, Null)), ""),
    ("name >= Null", Mixed, Where((2, Op::Ge, Null)), ""),
    (
        "both",
        Five,
        Both((1, Op::Gt, Int(1)), (2, Op::Ne, Text("b")), Counted),
        "1|;",
    ),
    (
        "neither",
        Five,
        Both((1, Op::Gt, Int(1)), (1, Op::Lt, Int(1)), Numbers),
        "0|NULL|NULL|NULL|;",
    ),
];

pub static AGGREGATES: [Case; 14] = [
    ("names that no row has", Narrow, Of(Names), "2|NULL|NULL|;"),
    (
        "the rows",
        Greatest,
        All,
        "9223372036854775807|NULL|;9223372036854775807|NULL|;",
    ),
    ("no rows", Empty, All, ""),
    ("numbers", Five, Of(Numbers), "5|15|1|7|;"),
    ("later numbers", Mixed, Of(Numbers), "8|16|-3|7|;"),
    ("names", Five, Of(Names), "5|a|b|;"),
    (
        "names that begin one another",
        Mixed,
        Where((2, Op::Lt, Text("b"))),
        "1|ab|;NULL|a|;-3|ab|;1|abc|;5||;",
    ),
    (
        "the greater name",
        Mixed,
        Both((2, Op::Ne, Text("b")), (2, Op::Ne, Text("")), Names),
        "4|a|abc|;",
    ),
    ("numbers of none", Empty, Of(Numbers), "0|NULL|NULL|NULL|;"),
    ("names of none", Empty, Of(Names), "0|NULL|NULL|;"),
    (
        "Nulls for numbers",
        Nulls,
        Of(Numbers),
        "2|NULL|NULL|NULL|;",
    ),
    ("Nulls for names", Nulls, Of(Names), "2|NULL|NULL|;"),
    (
        "above the integers",
        Greatest,
        Of(Numbers),
        "2|18446744073709551614|9223372036854775807|9223372036854775807|;",
    ),
    (
        "below the integers",
        Least,
        Of(Numbers),
        "2|-18446744073709551616|-9223372036854775808|-9223372036854775808|;",
    ),
];

pub static GROUPS: [Case; 11] = [
    (
        "by names that no row has",
        Narrow,
        By(2, Numbers),
        "NULL|2|7|3|4|;",
    ),
    (
        "by names",
        Five,
        By(2, Numbers),
        "NULL|1|7|7|7|;a|2|6|1|5|;b|2|2|2|2|;",
    ),
    (
        "by numbers",
        Five,
        By(1, Counted),
        "NULL|1|;1|1|;2|1|;5|1|;7|1|;",
    ),
    (
        "by names that begin one another",
        Mixed,
        By(2, Numbers),
        "NULL|2|7|7|7|;|1|5|5|5|;a|1|NULL|NULL|NULL|;ab|2|-2|-3|1|;abc|1|1|1|1|;b|1|5|5|5|;",
    ),
    (
        "by numbers below zero",
        Mixed,
        By(1, Names),
        "NULL|2|a|a|;-3|1|ab|ab|;1|2|ab|abc|;5|2||b|;7|1|NULL|NULL|;",
    ),
    (
        "by numbers that share a slot",
        Shared,
        By(1, Names),
        "NULL|2|@|@|;-9223372036854775808|2|alongerwordthatiskeptapart|dac|;-133|1|||;-5|2|as|b|;0|2|@|alongernamethatiskeptapart|;1|1|NULL|NULL|;5|3|alongerwordthatiskeptapart|bar|;128|2|bar|cad|;133|3|abc|bb|;",
    ),
    (
        "by names that share a slot",
        Shared,
        By(2, Numbers),
        "NULL|2|1|1|1|;|1|-133|-133|-133|;@|2|0|0|0|;abc|1|133|133|133|;alongernamethatiskeptapart|2|133|0|133|;alongerwordthatiskeptapart|2|-9223372036854775803|-9223372036854775808|5|;as|1|-5|-5|-5|;b|2|0|-5|5|;bar|2|133|5|128|;bb|1|133|133|133|;cad|1|128|128|128|;dac|1|-9223372036854775808|-9223372036854775808|-9223372036854775808|;",
    ),
    ("by Nulls", Nulls, By(2, Counted), "NULL|2|;"),
    ("of no rows", Empty, By(1, Counted), ""),
    (
        "of those that pass",
        Mixed,
        WhereBy((1, Op::Ge, Int(5)), 2, Counted),
        "NULL|1|;|1|;b|1|;",
    ),
    (
        "of none that passes",
        Mixed,
        WhereBy((1, Op::Gt, Int(7)), 2, Counted),
        "",
    ),
];

pub static REFUSALS: [Case; 12] = [
    (
        "a test of a column",
        Empty,
        Where((3, Op::Eq, Null)),
        "NoColumn",
    ),
    ("an aggregate of a column", Five, Of(Third), "NoColumn"),
    ("a group by a column", Five, By(3, Counted), "NoColumn"),
    (
        "a text for a number",
        Empty,
        Where((1, Op::Ne, Text("a"))),
        "WrongType",
    ),
    (
        "a number for a text",
        Five,
        Where((2, Op::Ne, Int(1))),
        "WrongType",
    ),
    ("a sum of texts", Five, Of(NamesSummed), "WrongType"),
    (
        "a sum of texts of none",
        Empty,
        By(1, NamesSummed),
        "WrongType",
    ),
    ("a column before a sum", Five, Of(Fourth), "NoColumn"),
    (
        "a column before a literal",
        Five,
        Both((1, Op::Eq, Text("a")), (3, Op::Eq, Int(1)), Counted),
        "NoColumn",
    ),
    (
        "a column before both",
        Five,
        WhereBy((1, Op::Eq, Text("a")), 3, NamesSummed),
        "NoColumn",
    ),
    (
        "a literal behind a good one",
        Five,
        Both((1, Op::Eq, Int(1)), (2, Op::Eq, Int(1)), Counted),
        "WrongType",
    ),
    (
        "Null is of each kind",
        Five,
        Both((1, Op::Eq, Null), (2, Op::Eq, Null), Counted),
        "0|;",
    ),
];
