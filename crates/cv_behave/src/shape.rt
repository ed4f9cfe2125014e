//! The parts of a row that are looked up by the numbers of an action and a port.

ghost use Rattle.std.specs.Prelude.{◌≡◌, ◌==◌, ℕ, List, false, if◌then◌else◌};
ghost use Rattle.cv_behave.specs.KindRow.{count_at};

/// The count of a port.
pub fn port_count(counts: &[u16], port: u8) -> u16
    ensures { result ≡ count_at port counts.now }
{
    match counts.get(usize::from(port)) {
        Some(count) => *count,
        None => 0,
    }
}

/// The count of a port for the only action.
pub fn only_count(action: u8, counts: &[u16], port: u8) -> u16
    ensures { result ≡ (if action == 0 then count_at port counts.now else 0) }
{
    if action == 0 {
        port_count(counts, port)
    } else {
        0
    }
}

/// The count of a port for the first of two actions, or for the second.
pub fn either_count(action: u8, first: &[u16], second: &[u16], port: u8) -> u16
    ensures { result
        ≡ (if action == 0 then count_at port first.now else if action == 1 then count_at port second.now else 0) }
{
    match action {
        0 => port_count(first, port),
        1 => port_count(second, port),
        _ => 0,
    }
}

/// The count of a port for the first of three actions, the second or the third.
pub fn any_count(action: u8, first: &[u16], second: &[u16], third: &[u16], port: u8) -> u16
    ensures { result
        ≡ (if action == 0 then count_at port first.now else if action == 1 then count_at port second.now else if action == 2 then count_at port third.now else 0) }
{
    match action {
        0 => port_count(first, port),
        1 => port_count(second, port),
        2 => port_count(third, port),
        _ => 0,
    }
}

/// What holds of the only action.
pub fn only(action: u8, holds: bool) -> bool
    ensures { result ≡ (if action == 0 then holds else false) }
{
    action == 0 && holds
}

/// What holds of the first of two actions, or of the second.
pub fn either(action: u8, first: bool, second: bool) -> bool
    ensures { result ≡ (if action == 0 then first else if action == 1 then second else false) }
{
    match action {
        0 => first,
        1 => second,
        _ => false,
    }
}

/// What holds of the first of three actions, the second or the third.
pub fn any(action: u8, first: bool, second: bool, third: bool) -> bool
    ensures { result
        ≡ (if action == 0 then first else if action == 1 then second else if action == 2 then third else false) }
{
    match action {
        0 => first,
        1 => second,
        2 => third,
        _ => false,
    }
}
