//! Paths: where an actor or an instance stands below the root.

ghost use Rattle.std.specs.Prelude.{◌≡◌, ◌∷◌, [], ◌++◌, List, IfOk, OnOk, string_bytes};
ghost use Rattle.cv_expand.specs.Paths.{step_text, rest_text, path_text, IsStep, IsPath};
ghost use Rattle.cv_expand.specs.declared.path.Step.{Step};

use cv_lex::NameText;
use cv_token::{OutOfMemory, Text};
use sqlite_items::Items;
use std::alloc::Global;

/// One step of a path.
#[derive(Drop)]
pub enum Step {
    /// What is declared under this name.
    Name(NameText),
    /// `#k`: the constant of the k-th join of its body whose source is a value, from 1.
    Constant(usize),
}

/// The steps from the root.
pub type Path = Items<Step>;

impl Step {
    /// An equal step of its own.
    pub fn copy(&self, alloc: Global) -> Result<Step, OutOfMemory>
        ensures { IfOk result (λ step. step ≡ self.now) }
    {
        match self {
            Step::Name(name) => Ok(Step::Name(name.copy(alloc)?)),
            Step::Constant(number) => Ok(Step::Constant(*number)),
        }
    }
}

/// An equal path of its own.
pub fn copy_path(alloc: Global, path: &Path) -> Result<Path, OutOfMemory>
    ensures { IfOk result (λ copy. copy ≡ path.now) }
{
    let mut copy = Path::new(alloc);
    for step in path.as_slice() {
        copy.push(step.copy(alloc)?)?;
    }
    Ok(copy)
}

/// The path one step further.
pub(crate) fn path_with(alloc: Global, path: &Path, step: Step) -> Result<Path, OutOfMemory>
    ensures { IfOk result (λ longer. longer ≡ path.now ++ step ∷ []) }
{
    let mut longer = copy_path(alloc, path)?;
    longer.push(step)?;
    Ok(longer)
}

/// The text of a path: its steps with a `/` between each two, a constant as `#` and its number. Paths of one text are one
/// path, since names have neither a `/` nor a `#`.
#[tactic(auto, using(crate::proofs::PathTexts::one_path))]
pub fn path_text(alloc: Global, path: &[Step]) -> Result<Text, OutOfMemory>
    ensures text { IfOk result (λ text. text ≡ path_text path.now) }
    ensures steps { IfOk result (λ text. IsPath path.now) }
    ensures one { IfOk result (λ text. (other : List Step) → IsPath other → path_text other ≡ text → other ≡ path.now) }
{
    let mut text = String::new(alloc);
    let Some((first, rest)) = path.split_first() else {
        return Ok(Text::from_string(text))
    };
    push_step(&mut text, first)?;
    push_rest(&mut text, rest)?;
    Ok(Text::from_string(text))
}

/// The text of a step.
fn push_step(out: &mut String, step: &Step) -> Result<(), OutOfMemory>
    ensures text { OnOk result (string_bytes out.new ≡ string_bytes out.old ++ step_text step.now) }
    ensures step { IsStep step.now }
{
    match step {
        Step::Name(name) => out.push_str(name.as_str())?,
        Step::Constant(number) => {
            let number = *number;
            write!(out, "#{number}")?;
        }
    }
    Ok(())
}

/// The text of steps, each behind a `/`.
fn push_rest(out: &mut String, path: &[Step]) -> Result<(), OutOfMemory>
    ensures text { OnOk result (string_bytes out.new ≡ string_bytes out.old ++ rest_text path.now) }
    ensures steps { OnOk result (IsPath path.now) }
{
    for step in path {
        out.push('/')?;
        push_step(out, step)?;
    }
    Ok(())
}
