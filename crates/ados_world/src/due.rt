// Which shells are due, as two words with a bit for each number.
ghost use Rattle.std.specs.{Prelude.{◌≡◌, ◌≢◌, ◌≤◌, ℕ, false, IfSome}, Option.{option_copied}};
ghost use Rattle.ados_machine.specs.World.{at_number, option_flatten};
ghost use Rattle.ados_world.specs.{Due.{asks_now, first_number, is_set, takes_turns}, Shells.{IsShellNumber}};

use crate::shells::find_shell;
use ados_shell::Shell;

/// Which shells are due, as two words with a bit for each number.
#[derive(Clone, Copy)]
pub struct DueShells {
    /// Those that take a turn once they have input.
    pub turning: u32,
    /// Those that asked a launcher for something, and wait for it.
    pub pending: u32,
}

impl DueShells {
    /// No shell is.
    pub fn none() -> DueShells
        ensures turning { (k : ℕ) → is_set result.turning k ≡ false }
        ensures pending { (k : ℕ) → is_set result.pending k ≡ false }
    {
        DueShells {
            turning: 0,
            pending: 0,
        }
    }

    /// Renews the bits of a number, by its shell among these.
    pub fn renew(&mut self, number: u8, shells: &[Option<Shell>; 20])
        requires { IsShellNumber number }
        ensures turning { is_set self.new.turning number ≡ takes_turns (option_flatten (at_number shells.now number)) }
        ensures pending { is_set self.new.pending number ≡ asks_now (option_flatten (at_number shells.now number)) }
        ensures other_turning { (k : ℕ) → k ≤ 20 → k ≢ number → is_set self.new.turning k ≡ is_set self.old.turning k }
        ensures other_pending { (k : ℕ) → k ≤ 20 → k ≢ number → is_set self.new.pending k ≡ is_set self.old.pending k }
    {
        let shell = find_shell(shells, number);
        self.turning = with_bit(self.turning, number, takes_turns(shell));
        self.pending = with_bit(self.pending, number, asks_now(shell));
    }
}

/// The first number from one on, up to 20, whose bit is set.
pub fn first_set(word: u32, from: u8) -> Option<u8>
    requires { from ≤ 21 }
    ensures number { result ≡ first_number from (is_set word) }
    ensures low { IfSome result (λ number. from ≤ number) }
    ensures high { IfSome result (λ number. number ≤ 20) }
{
    let number = u32::from(from) + (word >> from).trailing_zeros();
    if number <= 20 {
        Some(number as u8)
    } else {
        None
    }
}

// A word in which the bit of a number is set, or is not; the others stay.
fn with_bit(word: u32, number: u8, is_one: bool) -> u32
    requires { number ≤ 20 }
    ensures number { is_set result number ≡ is_one }
    ensures others { (k : ℕ) → k ≤ 20 → k ≢ number → is_set result k ≡ is_set word k }
{
    let bit = 1 << number;
    if is_one { word | bit } else { word & !bit }
}

// The shell, if there is one, takes a turn once it has input.
fn takes_turns(shell: Option<&Shell>) -> bool
    ensures { result ≡ takes_turns (option_copied shell.entry) }
{
    match shell {
        None => false,
        Some(shell) => shell.can_take(true),
    }
}

// The shell, if there is one, waits for what it asked a launcher for.
fn asks_now(shell: Option<&Shell>) -> bool
    ensures { result ≡ asks_now (option_copied shell.entry) }
{
    match shell {
        None => false,
        Some(shell) => shell.request().is_some(),
    }
}
