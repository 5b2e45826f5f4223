//! The loads, as words name them: `tree:numbers:400:10` is that of a list of 400 numbers over the
//! tree, done 10 times.

ghost use Rattle.std.specs.Prelude.{◌≤◌, IfSome};

/// What is done.
#[derive(Clone, Copy)]
pub(crate) enum Load {
    /// Variables are bound one after the other, and all versions are kept.
    Versions,
    /// Steps down a list of numbers, each of which takes the list apart by a new pair.
    Numbers,
    /// The same down a list of variables.
    Variables,
    /// Two equal lists of numbers are unified.
    Equal,
}

/// A load, over which body, of what size, and how often.
#[derive(Clone, Copy)]
pub(crate) struct Wanted {
    pub load: Load,
    pub in_list: bool,
    pub size: u64,
    pub times: u64,
    ghost few: { size ≤ 1000000 },
}

// The load of a name.
fn load_of(name: &str) -> Option<Load> {
    match name {
        "versions" => Some(Load::Versions),
        "numbers" => Some(Load::Numbers),
        "variables" => Some(Load::Variables),
        "equal" => Some(Load::Equal),
        _ => None,
    }
}

// Whether the list is meant, and not the tree.
fn in_list_of(name: &str) -> Option<bool> {
    match name {
        "list" => Some(true),
        "tree" => Some(false),
        _ => None,
    }
}

// A number of at most a million.
fn number_of(digits: &str) -> Option<u64>
    ensures { IfSome result (λ number. number ≤ 1000000) }
{
    match digits.parse::<u64>() {
        Ok(number) if number <= 1000000 => Some(number),
        _ => None,
    }
}

/// What a word asks for.
pub(crate) fn wanted_of(word: &str) -> Option<Wanted> {
    let (body, rest) = word.split_once(':')?;
    let (name, rest) = rest.split_once(':')?;
    let (size, times) = rest.split_once(':')?;
    Some(Wanted {
        load: load_of(name)?,
        in_list: in_list_of(body)?,
        size: number_of(size)?,
        times: number_of(times)?,
    })
}
