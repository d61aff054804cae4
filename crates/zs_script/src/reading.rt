//! The reading of a script's lines.

ghost use Rattle.std.specs.Prelude.{◌≡◌, ◌↔◌, List, ℕ, Err, IfOk, IsTrue, MatchOption};
ghost use Rattle.zs_script.specs.Grammar.{IsNoStep, IsPassedOver, Spells, TakesMemory, words_of};
ghost use Rattle.zs_script.specs.Readings.{ReadsWords};
ghost use Rattle.zs_script.specs.Scripts.{AreSpelled, MayPlay};
ghost use Rattle.zs_script.specs.declared.step.Setting.{Setting};
ghost use Rattle.zs_script.specs.declared.step.Step.{Step};

use crate::step::{Setting, Step};
use crate::words::{read_words, split_words};
use std::alloc::Global;
use zs_words::LineFault;

/// The step that a line spells after what the steps before leave to it, and none for a line that is
/// passed over: an empty one, or one that begins with `#`. The line is given without its line feed.
pub fn read_line(alloc: Global, setting: Setting, line: &[u8]) -> Result<Option<Step>, LineFault>
    ensures step { IfOk result
        (λ read. MatchOption read (IsPassedOver line.now) (Spells setting line.now)) }
    ensures not_a_step { result ≡ Err LineFault.NotAStep → IsNoStep setting line.now }
    ensures no_memory { result ≡ Err LineFault.NoMemory
        → (step : Step) × Spells setting line.now step × TakesMemory step }
{
    if is_passed_over(line) {
        return Ok(None);
    }
    Ok(Some(read_step(alloc, setting, line)?))
}

fn is_passed_over(line: &[u8]) -> bool
    ensures { IsTrue result ↔ IsPassedOver line.now }
{
    match line {
        [] => true,
        [first, ..] => *first == b'#',
    }
}

fn read_step(alloc: Global, setting: Setting, line: &[u8]) -> Result<Step, LineFault>
    ensures { ReadsWords setting (words_of line.now) result }
{
    let Some(words) = split_words(line) else {
        return Err(LineFault::NotAStep);
    };
    read_words(alloc, setting, &words)
}

/// A line that is passed over spells no step.
pub fn passed_over_lines_spell_none()
    ensures { (setting : Setting) (line : List ℕ) (step : Step)
        → IsPassedOver line → Spells setting line step → ⊥ }
{}

/// A line spells one step at most.
pub fn one_step_at_most()
    ensures { (setting : Setting) (line : List ℕ) (a b : Step)
        → Spells setting line a → Spells setting line b → a ≡ b }
{}

/// What a line spells names a shard that is there, at least one and at most 16 shards, notices from 1
/// on, and for a registration each section once, in the order of the sections.
pub fn steps_may_be_played()
    ensures { (setting : Setting) (line : List ℕ) (step : Step)
        → Spells setting line step → MayPlay setting.shards step }
{}

/// Only the first step says how many shards there are.
pub fn only_first_steps_make_shards()
    ensures { (setting : Setting) (line : List ℕ) (count : ℕ)
        → Spells setting line (Step.Shards count) → IsTrue setting.is_first }
{}

/// Lines spell one list of steps at most.
pub fn one_list_of_steps()
    ensures { (lines : List (List ℕ)) (a b : List Step)
        → AreSpelled lines a → AreSpelled lines b → a ≡ b }
{}
