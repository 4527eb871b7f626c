//! The words of the command line.
ghost use Rattle.std.specs.Prelude.{◌≡◌, ◌+◌, ◌*◌, ◌^◌, ◌≤◌, ◌∷◌, IfSome, IfNone, option_map};
ghost use Rattle.plmod.specs.Words.{Link, Run, All, Show, order_of, command_of, prepare_of, some_of, goal_of, grow_of, budget_of, count_of};

use pl_atoms::{Items, Name};

/// The words of the command line, without the program's own name.
pub type Words = Items<Name>;

/// What the words ask for.
#[derive(Clone, Copy)]
pub enum Command<'a> {
    /// Prepare a text into a unit, where some units are known.
    Prepare {
        out: &'a Name,
        text: &'a Name,
        known: &'a [Name],
    },
    /// Link units.
    Link {
        units: &'a [Name],
    },
    /// Run a goal over units, with a budget of steps.
    Run {
        budget: u64,
        goal: &'a Name,
        units: &'a [Name],
    },
    /// Run a goal over texts, with a budget of steps.
    All {
        budget: u64,
        goal: &'a Name,
        texts: &'a [Name],
    },
    /// Link units, and show what is visible.
    Show {
        units: &'a [Name],
    },
    /// Run the goal of a program that grows with its number of modules.
    Grow {
        count: u64,
        budget: u64,
    },
}

/// The command that the words are. None exactly where they are none.
pub fn read_words(words: &Words) -> Option<Command<'_>>
    ensures { option_map order_of result ≡ command_of words.now }
{
    match words.as_slice() {
        [] => None,
        [word, rest @ ..] => read_command(word.as_bytes(), rest),
    }
}

fn read_command<'a>(word: &[u8], rest: &'a [Name]) -> Option<Command<'a>>
    ensures { option_map order_of result ≡ command_of (word.now ∷ rest.now) }
{
    if word == b"prepare".as_slice() {
        read_prepare(rest)
    } else if word == b"link".as_slice() {
        read_link(rest)
    } else if word == b"run".as_slice() {
        read_run(rest)
    } else if word == b"all".as_slice() {
        read_all(rest)
    } else if word == b"show".as_slice() {
        read_show(rest)
    } else if word == b"grow".as_slice() {
        read_grow(rest)
    } else {
        None
    }
}

fn read_prepare(words: &[Name]) -> Option<Command<'_>>
    ensures { option_map order_of result ≡ prepare_of words.now }
{
    match words {
        [out, text, known @ ..] => Some(Command::Prepare { out, text, known }),
        _ => None,
    }
}

fn read_link(units: &[Name]) -> Option<Command<'_>>
    ensures { option_map order_of result ≡ some_of Link units.now }
{
    match units {
        [] => None,
        _ => Some(Command::Link { units }),
    }
}

fn read_show(units: &[Name]) -> Option<Command<'_>>
    ensures { option_map order_of result ≡ some_of Show units.now }
{
    match units {
        [] => None,
        _ => Some(Command::Show { units }),
    }
}

fn read_run(words: &[Name]) -> Option<Command<'_>>
    ensures { option_map order_of result ≡ goal_of Run words.now }
{
    match words {
        [budget, goal, _, ..] => {
            let budget = read_budget(budget.as_bytes())?;
            Some(Command::Run {
                budget,
                goal,
                units: &words[2..],
            })
        }
        _ => None,
    }
}

fn read_all(words: &[Name]) -> Option<Command<'_>>
    ensures { option_map order_of result ≡ goal_of All words.now }
{
    match words {
        [budget, goal, _, ..] => {
            let budget = read_budget(budget.as_bytes())?;
            Some(Command::All {
                budget,
                goal,
                texts: &words[2..],
            })
        }
        _ => None,
    }
}

fn read_grow(words: &[Name]) -> Option<Command<'_>>
    ensures { option_map order_of result ≡ grow_of words.now }
{
    match words {
        [count, budget] => {
            let count = read_count(count.as_bytes())?;
            let budget = read_budget(budget.as_bytes())?;
            Some(Command::Grow { count, budget })
        }
        _ => None,
    }
}

/// One or more digits for a number from 1 to 2,000.
fn read_count(digits: &[u8]) -> Option<u64>
    ensures { result ≡ count_of digits.now }
{
    let count = read_budget(digits)?;
    if 1 <= count && count <= 2000 {
        Some(count)
    } else {
        None
    }
}

/// One or more digits for a number below 2^64.
fn read_budget(digits: &[u8]) -> Option<u64>
    ensures { result ≡ budget_of digits.now }
{
    if digits.is_empty() {
        return None;
    }
    let mut number = 0u64;
    for digit in digits {
        if !digit.is_ascii_digit() {
            return None;
        }
        match with_digit(number, *digit - b'0') {
            Some(more) => number = more,
            None => return None,
        }
    }
    Some(number)
}

/// The number with one more digit, if it is below 2^64.
fn with_digit(number: u64, digit: u8) -> Option<u64>
    ensures some { IfSome result (λ more. more ≡ number * 10 + digit) }
    ensures none { IfNone result (2 ^ 64 ≤ number * 10 + digit) }
{
    number.checked_mul(10)?.checked_add(u64::from(digit))
}
