//! The operations of a request.
ghost use Rattle.std.specs.Prelude.{◌≡◌, ◌≢◌, IfSome, IfNone, Some};
ghost use Rattle.m2m_names.specs.declared.operations.Op.{Op};
ghost use Rattle.m2m_names.specs.Operations.{op_row, op_of_number};

/// An operation of a request.
#[derive(Clone, Copy, Debug, PartialEq, Eq)]
pub enum Op {
    Create,
    Retrieve,
    Update,
    Delete,
    Notify,
}

/// A row of the table of operations.
#[derive(Clone, Copy)]
struct Row {
    number: i64,
    bit: u32,
}

/// The bit of DISCOVERY in `acop` (TS-0001, 9.6.2.1.2).
pub const DISCOVERY_BIT: u32 = 32;

/// All six bits of `acop`.
pub const ALL_BITS: u32 = 63;

const ALL: [Op; 5] = [Op::Create, Op::Retrieve, Op::Update, Op::Delete, Op::Notify];

impl Op {
    /// The operation that `ALL` has at a number.
    fn find(n: i64) -> Option<Op>
        ensures { result ≡ op_of_number n }
    {
        ALL.iter().copied().find(|op| op.number() == n)
    }

    /// Its row of the table.
    fn row(self) -> Row
        ensures { record { number = result.number; bit = result.bit } ≡ op_row self }
    {
        match self {
            Op::Create => Row { number: 1, bit: 1 },
            Op::Retrieve => Row { number: 2, bit: 2 },
            Op::Update => Row { number: 3, bit: 4 },
            Op::Delete => Row { number: 4, bit: 8 },
            Op::Notify => Row { number: 5, bit: 16 },
        }
    }

    /// The operation of a number, as it stands in a request.
    pub fn from_number(n: i64) -> Option<Op>
        ensures value { result ≡ op_of_number n }
        ensures found { IfSome result (λ op. (op_row op).number ≡ n) }
        ensures none { IfNone result ((op : Op) → (op_row op).number ≢ n) }
    {
        Op::find(n)
    }

    /// Its number in a request.
    pub fn number(self) -> i64
        ensures value { result ≡ (op_row self).number }
        ensures back { op_of_number result ≡ Some self }
    {
        self.row().number
    }

    /// Its bit in `acop`.
    pub fn bit(self) -> u32
        ensures { result ≡ (op_row self).bit }
    {
        self.row().bit
    }
}
