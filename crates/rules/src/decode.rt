// One row read from its head and its number.
ghost use Rattle.std.specs.Prelude.{◌≡◌};
ghost use Rattle.std.specs.Result.{result_ok};
ghost use Rattle.rules.specs.Decoded.{bare, blank, only_number, only_name, only_variable, only_code, pick_of, duration_allowed, occurrence_of, scope_of, decoded};

use crate::raw::RawRow;
use crate::row::{
    Connective, Junction, Operation, Pick, Quantifier, Relation, Row, Side, Undefined,
};

// The row of a kind that names no field.
fn bare_row(kind: u8) -> Option<Row>
    ensures { result ≡ bare kind }
{
    match kind {
        1 => Some(Row::Not),
        2 => Some(Row::Connect {
            connective: Connective::Or,
        }),
        3 => Some(Row::Connect {
            connective: Connective::And,
        }),
        4 => Some(Row::Connect {
            connective: Connective::Implies,
        }),
        20 => Some(Row::True),
        21 => Some(Row::NotTest),
        22 => Some(Row::Join {
            junction: Junction::And,
        }),
        23 => Some(Row::Join {
            junction: Junction::Or,
        }),
        24 => Some(Row::Compare {
            relation: Relation::Equal,
        }),
        25 => Some(Row::Compare {
            relation: Relation::Less,
        }),
        26 => Some(Row::Compare {
            relation: Relation::AtMost,
        }),
        34 => Some(Row::Reckon {
            operation: Operation::Sum,
        }),
        35 => Some(Row::Reckon {
            operation: Operation::Difference,
        }),
        36 => Some(Row::Reckon {
            operation: Operation::Product,
        }),
        37 => Some(Row::Reckon {
            operation: Operation::Quotient,
        }),
        _ => None,
    }
}

impl TryFrom<u8> for Pick {
    type Error = Undefined;

    ghost try_from_gives = { λ number pick. result_ok pick ≡ pick_of number };

    fn try_from(number: u8) -> Result<Pick, Undefined> {
        match number {
            1 => Ok(Pick::First),
            2 => Ok(Pick::Last),
            3 => Ok(Pick::Each),
            _ => Err(Undefined),
        }
    }
}

fn duration_allowed(side: Side, number: i32) -> bool
    ensures { result ≡ duration_allowed side number }
{
    match side {
        Side::Given => number == 0,
        Side::After | Side::Before => number >= 0,
    }
}

impl RawRow {
    // No field named.
    fn is_blank(self) -> bool
        ensures { result ≡ blank self }
    {
        self.a == 0 && self.b == 0 && self.c == 0 && self.number == 0
    }

    fn names_only_number(self) -> bool
        ensures { result ≡ only_number self }
    {
        self.a == 0 && self.b == 0 && self.c == 0
    }

    fn names_only_name(self) -> bool
        ensures { result ≡ only_name self }
    {
        self.a > 0 && self.b == 0 && self.c == 0 && self.number == 0
    }

    fn names_only_variable(self) -> bool
        ensures { result ≡ only_variable self }
    {
        self.b == 0 && self.c == 0 && self.number == 0
    }

    // Only a variable and a code named.
    fn names_only_code(self) -> bool
        ensures { result ≡ only_code self }
    {
        self.b > 0 && self.c == 0 && self.number == 0
    }

    fn occurrence(self) -> Option<Row>
        ensures { result ≡ occurrence_of self }
    {
        let count = u16::try_from(self.number).ok()?;
        (self.a > 0 && self.b == 0 && self.c == 0).then_some(Row::Occurrence {
            name: self.a,
            count,
        })
    }

    fn scope(self, side: Side) -> Option<Row>
        ensures { result ≡ scope_of side self }
    {
        let pick = Pick::try_from(self.b).ok()?;
        let duration = u32::try_from(self.number).ok()?;
        (self.a > 0 && self.c == 0 && duration_allowed(side, self.number)).then_some(Row::Scope {
            side,
            pick,
            name: self.a,
            duration,
        })
    }

    // The row that a head and a number stand for, if they stand for one.
    fn row(self) -> Option<Row>
        ensures { result ≡ decoded self }
    {
        match self.kind {
            5 => self.occurrence(),
            6 => self
                .names_only_name()
                .then_some(Row::Absence { name: self.a }),
            7 => self.scope(Side::After),
            8 => self.scope(Side::Before),
            9 => self.scope(Side::Given),
            10 => self.names_only_code().then_some(Row::Quantify {
                quantifier: Quantifier::Forall,
                variable: self.a,
                code: self.b,
            }),
            11 => self.names_only_code().then_some(Row::Quantify {
                quantifier: Quantifier::Exists,
                variable: self.a,
                code: self.b,
            }),
            30 => self.names_only_number().then_some(Row::Constant {
                number: self.number,
            }),
            31 => self
                .names_only_variable()
                .then_some(Row::Time { variable: self.a }),
            32 => self.names_only_code().then_some(Row::Value {
                variable: self.a,
                code: self.b,
            }),
            33 => self
                .names_only_variable()
                .then_some(Row::Number { variable: self.a }),
            kind => if self.is_blank() {
                bare_row(kind)
            } else {
                None
            },
        }
    }
}

impl TryFrom<RawRow> for Row {
    type Error = Undefined;

    ghost try_from_gives = { λ raw row. result_ok row ≡ decoded raw };

    fn try_from(raw: RawRow) -> Result<Row, Undefined> {
        raw.row().ok_or(Undefined)
    }
}
