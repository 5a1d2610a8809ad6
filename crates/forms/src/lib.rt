// The table of commands for writing and reading a session: how many bytes a step has, and how large its operands may be.
//
// A column of the table is a word with a byte for each command, BEGIN's the lowest. So no branch goes by the command: where the commands
// come in no order, it would be guessed wrong at every other step.
#![tactic(auto)]

ghost use Rattle.std.specs.Prelude.{◌≡◌, ◌&&◌, ℕ, suc, ◌+◌, ltb, false, MatchOption};
ghost use Rattle.rules.specs.Bytes.{widths};
ghost use Rattle.forms.specs.Slots.{slot, operands, is_present, slot_limit, Known};
ghost use Rattle.forms.specs.Columns.{byte_of, Ranged, Bounds};

// A step in words: its number, then three operands.
pub const STEP_WORDS: usize = 4;

// The bytes of a step with one operand, and with all three. With two it has one more than the shortest.
pub const SHORTEST: usize = 2;

pub const LONGEST: usize = 7;

// The numbers of WRITE, which alone has a third operand, a content, and of the last command.
const WRITE: u32 = 3;

const LAST: u32 = 8;

// How many bytes a step has.
const SIZES: u64 = 0x0203020202070302;

// Which commands have a save first, and which a node; which have a save second, and which a sheet.
const SAVE_FIRST: u64 = 0x0100010001010101;

const NODE_FIRST: u64 = 0x0001000100000000;

const SAVE_SECOND: u64 = 0x0001000000000000;

const SHEET_SECOND: u64 = 0x0000000000010100;

const LAST_SAVE: u64 = limits::MAX_SAVES as u64 - 1;

const LARGEST_CONTENT: u32 = u32::MAX;

// A command's number.
#[derive(Clone, Copy)]
pub struct Kind {
    pub number: u32,
    ghost known: { Known number },
}

impl Kind {
    // The command that has this number, if one has.
    pub fn new(c: u32) -> Option<Kind>
        ensures { MatchOption result (is_present (slot (operands c) 0) ≡ false) (λ k. k.number ≡ c) }
    {
        if c < 1 || LAST < c {
            return None;
        }
        Some(Kind { number: c })
    }

    // Its byte of a column.
    fn byte_of(self, column: u64) -> u64
        ensures { result ≡ byte_of column self.number }
    {
        (column >> (8 * (self.number as u64 - 1))) % 256
    }

    // How many bytes a step of this command has.
    pub fn size(self) -> usize
        ensures { result ≡ 1 + widths (operands self.number) }
    {
        self.byte_of(SIZES) as usize
    }

    // The largest third operand, 0 where there is none: a content has no limit but its bytes'.
    pub fn largest_third(self) -> u32
        ensures { (n m : ℕ) → slot_limit n m (slot (operands self.number) 2) ≡ suc result }
    {
        if self.number == WRITE {
            LARGEST_CONTENT
        } else {
            0
        }
    }
}

// Two columns: the largest first and the largest second operand of each command, 0 where it has none.
#[derive(Clone, Copy)]
pub struct Largest {
    pub first: u64,
    pub second: u64,
}

impl Largest {
    // The columns of a session with so many nodes and sheets.
    pub fn new(nodes: u64, sheets: u64) -> Largest
        requires { Ranged nodes sheets }
        ensures { Bounds nodes sheets result }
    {
        Largest {
            first: SAVE_FIRST * LAST_SAVE + NODE_FIRST * (nodes - 1),
            second: SAVE_SECOND * LAST_SAVE + SHEET_SECOND * (sheets - 1),
        }
    }

    // Whether a command's first two operands are small enough.
    pub fn fits(self, kind: Kind, x: u32, y: u32) -> bool
        ensures { (n m : ℕ) → Bounds n m self
            → result ≡ ltb x (slot_limit n m (slot (operands kind.number) 0)) && ltb y (slot_limit n m (slot (operands kind.number) 1)) }
    {
        let first = kind.byte_of(self.first);
        let second = kind.byte_of(self.second);
        x as u64 <= first && y as u64 <= second
    }
}
