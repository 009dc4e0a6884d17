// A literal is a code: 2·i for the variable i, 2·i + 1 for its negation. A stored code has 16 bits; the made formula may have more
// variables than these have room for, so what is asked of a literal is asked of a code of 32 bits.
ghost use Rattle.std.specs.Prelude.{◌≡◌, ◌≤◌, ◌<◌, ℕ};
ghost use Rattle.store.specs.Literals.{code_of, variable_of, is_negative, opposite_of};

// A code of either width, so that a clause of stored codes and one of made codes are read by one function. A list of codes is the list of
// their numbers, `map code`; at both types below a code is its number, so this list is the slice itself.
pub trait Coded: Copy {
    ghost code: { Self → ℕ };

    fn wide(self) -> u32
        ensures { result ≡ code self };
}

// A stored code.
impl Coded for u16 {
    ghost code = { λ number. number };

    fn wide(self) -> u32 {
        u32::from(self)
    }
}

// A made code.
impl Coded for u32 {
    ghost code = { λ number. number };

    fn wide(self) -> u32 {
        self
    }
}

// The code to store.
pub fn code(variable: u16, negative: bool) -> u16
    requires { variable ≤ 32767 }
    ensures { result ≡ code_of variable negative }
{
    2 * variable + negative as u16
}

// A stored code.
pub fn wide(code: u16) -> u32
    ensures { (result ≡ code) × (result < 65536) }
{
    u32::from(code)
}

pub fn variable(code: u32) -> usize
    ensures { result ≡ variable_of code }
{
    (code / 2) as usize
}

pub fn is_negative(code: u32) -> bool
    ensures { result ≡ is_negative code }
{
    code % 2 == 1
}

pub fn opposite(code: u32) -> u32
    ensures { result ≡ opposite_of code }
{
    code ^ 1
}
