//! The script that `gen N` prints.

ghost use Rattle.std.specs.Prelude.{◌≡◌, ◌++◌, IfOk, OnOk, string_bytes};
ghost use Rattle.std.specs.Fmt.{decimal};
ghost use Rattle.cv_top.specs.Generated.{declaration, declarations, join, joins, port_of, timer, chain, generated_script};

use cv_token::OutOfMemory;
use std::alloc::Global;

/// The script of so many chains: a timer, an identity, a sum, a sieve and a print each.
#[tactic(auto, using(crate::proofs::Chains::generated_more))]
pub fn generated_script(alloc: Global, number: u32) -> Result<String, OutOfMemory>
    ensures { IfOk result (λ text. string_bytes text ≡ generated_script number) }
{
    let mut text = String::new(alloc);
    for i in 0..number {
        push_chain(alloc, &mut text, i + 1)?;
    }
    Ok(text)
}

/// The nine lines of the i-th chain.
fn push_chain(alloc: Global, text: &mut String, i: u32) -> Result<(), OutOfMemory>
    ensures { OnOk result (string_bytes text.new ≡ string_bytes text.old ++ chain (decimal i)) }
{
    let number = i.to_string(alloc)?;
    push_declarations(alloc, text, number.as_str())?;
    push_joins(text, number.as_str())
}

/// The five declarations of a chain.
#[tactic(auto, unfolding(crate::specs::Generated::declarations))]
fn push_declarations(alloc: Global, text: &mut String, number: &str) -> Result<(), OutOfMemory>
    ensures { OnOk result (string_bytes text.new ≡ string_bytes text.old ++ declarations number.now) }
{
    let counted = timer(alloc, number)?;
    push_declaration(text, number, "src", counted.as_str())?;
    push_declaration(text, number, "mid", "std.Identity()")?;
    push_declaration(text, number, "sum", "std.Sum()")?;
    push_declaration(text, number, "pick", "flow.Every(n=10)")?;
    push_declaration(text, number, "snk", "io.Print()")
}

/// The four joins of a chain.
#[tactic(auto, unfolding(crate::specs::Generated::joins))]
fn push_joins(text: &mut String, number: &str) -> Result<(), OutOfMemory>
    ensures { OnOk result (string_bytes text.new ≡ string_bytes text.old ++ joins number.now) }
{
    push_join(text, number, "src", "integer", "mid", "token")?;
    push_join(text, number, "mid", "token", "sum", "integer")?;
    push_join(text, number, "sum", "integer", "pick", "token")?;
    push_join(text, number, "pick", "token", "snk", "token")
}

/// The timer of a chain, which counts from the chain's number.
#[tactic(auto, unfolding(crate::specs::Generated::timer))]
fn timer(alloc: Global, number: &str) -> Result<String, OutOfMemory>
    ensures { IfOk result (λ text. string_bytes text ≡ timer number.now) }
{
    let mut text = String::from_str(alloc, "std.CountTimer(sleep=0.01, start=")?;
    text.push_str(number)?;
    text.push_str(", steps=40)")?;
    Ok(text)
}

/// The line `NAMEi : KIND`.
#[tactic(auto, unfolding(crate::specs::Generated::declaration))]
fn push_declaration(
    text: &mut String,
    number: &str,
    name: &str,
    kind: &str,
) -> Result<(), OutOfMemory>
    ensures { OnOk result (string_bytes text.new ≡ string_bytes text.old ++ declaration number.now name.now kind.now) }
{
    text.push_str(name)?;
    text.push_str(number)?;
    text.push_str(" : ")?;
    text.push_str(kind)?;
    text.push_str("\n")
}

/// The line `FROMi.OUT > TOi.INP`.
#[tactic(auto, unfolding(crate::specs::Generated::join))]
fn push_join(
    text: &mut String,
    number: &str,
    from: &str,
    out: &str,
    to: &str,
    inp: &str,
) -> Result<(), OutOfMemory>
    ensures { OnOk result (string_bytes text.new ≡ string_bytes text.old ++ join number.now from.now out.now to.now inp.now) }
{
    push_port(text, number, from, out)?;
    text.push_str(" > ")?;
    push_port(text, number, to, inp)?;
    text.push_str("\n")
}

/// The port `NAMEi.PORT`.
fn push_port(text: &mut String, number: &str, name: &str, port: &str) -> Result<(), OutOfMemory>
    ensures { OnOk result (string_bytes text.new ≡ string_bytes text.old ++ port_of number.now name.now port.now) }
{
    text.push_str(name)?;
    text.push_str(number)?;
    text.push_str(".")?;
    text.push_str(port)
}
