// The rows that rules are written in, one after another in prefix order.

// How two properties are joined.
#[derive(Clone, Copy, Debug, PartialEq, Eq)]
pub enum Connective {
    Or,
    And,
    Implies,
}

// How two tests are joined.
#[derive(Clone, Copy, Debug, PartialEq, Eq)]
pub enum Junction {
    And,
    Or,
}

#[derive(Clone, Copy, Debug, PartialEq, Eq)]
pub enum Quantifier {
    Forall,
    Exists,
}

// Which events a scope judges: those behind its delimiter, those before it, or all.
#[derive(Clone, Copy, Debug, PartialEq, Eq)]
pub enum Side {
    After,
    Before,
    Given,
}

// Which of the events that match are delimiters.
#[derive(Clone, Copy, Debug, PartialEq, Eq)]
pub enum Pick {
    First,
    Last,
    Each,
}

#[derive(Clone, Copy, Debug, PartialEq, Eq)]
pub enum Relation {
    Equal,
    Less,
    AtMost,
}

#[derive(Clone, Copy, Debug, PartialEq, Eq)]
pub enum Operation {
    Sum,
    Difference,
    Product,
    Quotient,
}

// A row with what it names. It stands before the properties, tests or terms that it is made of.
#[derive(Clone, Copy, Debug, PartialEq, Eq)]
pub enum Row {
    Not,
    Connect {
        connective: Connective,
    },
    Occurrence {
        name: u8,
        count: u16,
    },
    Absence {
        name: u8,
    },
    Scope {
        side: Side,
        pick: Pick,
        name: u8,
        duration: u32,
    },
    Quantify {
        quantifier: Quantifier,
        variable: u8,
        code: u8,
    },
    True,
    NotTest,
    Join {
        junction: Junction,
    },
    Compare {
        relation: Relation,
    },
    Constant {
        number: i32,
    },
    Time {
        variable: u8,
    },
    Value {
        variable: u8,
        code: u8,
    },
    Number {
        variable: u8,
    },
    Reckon {
        operation: Operation,
    },
}

// Why bytes are not taken: they stand for no row, or for no value of a field.
#[derive(Clone, Copy, Debug, PartialEq, Eq)]
pub struct Undefined;
