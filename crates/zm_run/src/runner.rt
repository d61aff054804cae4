//! The lines of a script are played, and their output is handed over.

ghost use Rattle.std.specs.Prelude.{◌≡◌, ◌==◌, length, position};

use crate::input::{Input, MAX_LINE_BYTES};
use crate::status::Status;
use ev_base::NoMemory;
use ev_ports::{Sink, Written, write_all};
use std::alloc::Global;
use zm_play::Player;
use zs_script::{LineFault, Setting, Step, read_line};

/// Why a line isn't played.
#[derive(Clone, Copy, Debug, PartialEq, Eq)]
pub enum Stop {
    /// It is too long, or no step.
    BadLine,
    NoMemory,
}

impl From<LineFault> for Stop {
    ghost use Rattle.zm_run.specs.Stops.{stop_of};

    ghost from_gives = { λ fault stop. stop ≡ stop_of fault };

    fn from(fault: LineFault) -> Stop {
        match fault {
            LineFault::NotAStep => Stop::BadLine,
            LineFault::NoMemory => Stop::NoMemory,
        }
    }
}

impl From<NoMemory> for Stop {
    ghost use Rattle.zm_run.specs.declared.runner.Stop.TheVariants as stop;

    ghost from_gives = { λ _ why. why ≡ stop.NoMemory };

    fn from(_fault: NoMemory) -> Stop {
        Stop::NoMemory
    }
}

/// Plays the lines of a script, and keeps their output until it is handed over.
#[derive(Drop)]
pub struct Runner {
    pub player: Player,
    /// Whether no step was played.
    pub is_first: bool,
    pub lines: u64,
    pub output: Vec<u8>,
}

impl Runner {
    ghost use Rattle.std.specs.Prelude.{◌⊎◌, ◌<◌, ◌≤◌, ◌+◌, ℕ, List, Option, [], ◌∷◌, Err, IfErr, IfOk, MatchResult, OnErr, OnOk, drop, take, ◌-◌, ◌^◌};
    ghost use Rattle.ev_ports.specs.Ports.{IsSpent, PutsAll, Rose};
    ghost use Rattle.zm_run.specs.Inputs.{HasNoFeed, max_line_bytes};
    ghost use Rattle.zm_run.specs.RunEnds.{Replays};
    ghost use Rattle.zm_run.specs.Running.{HasPlayed, IsBad, IsCaused, PlayedOn, PlayedToEnd, PlaysStep, Running, StoppedIn, pending_of, setting_in};
    ghost use Rattle.zm_run.specs.Stops.{status_of};
    ghost use Rattle.zs_script.specs.Scripts.{MayPlay};

    /// No line was played.
    pub fn new(alloc: Global) -> Result<Runner, NoMemory>
        ensures { IfOk result (λ runner. HasPlayed runner [] [] × (runner.output.items ≡ [])) }
    {
        Ok(Runner {
            player: Player::new(alloc)?,
            is_first: true,
            lines: 0,
            output: Vec::new(alloc),
        })
    }

    /// Plays the whole lines of the pending bytes, and hands their output over.
    pub fn play_piece<K: Sink>(
        &mut self,
        alloc: Global,
        input: &mut Input,
        sink: &mut K,
    ) -> Result<(), Status>
        requires few { self.old.lines ≤ input.old.read }
        ensures goes { (left left' held : Option (List ℕ))
            → Running left left' held (K.held sink.old) self.old input.old
            → MatchResult result (λ _. Running left left' held (K.held sink.new) self.new input.new)
            (λ status. Replays status left left' held (K.held sink.new)) }
        ensures rest { OnOk result (HasNoFeed (pending_of input.new)) }
        ensures short { OnOk result (length (pending_of input.new) ≤ max_line_bytes) }
        ensures read { input.new.read ≡ input.old.read }
        ensures caused { IfErr result
            (λ status. IsCaused status ⊥ (Rose (K.faults sink.old) (K.faults sink.new))) }
        ensures count { K.faults sink.old ≤ K.faults sink.new }
    {
        let played = self.play_lines(alloc, input.pending());
        match self.hand_over(sink) {
            Written::Failed => Err(Status::WriteFault),
            Written::All => match played {
                Ok(used) => {
                    input.consume(used);
                    Ok(())
                }
                Err(stop) => Err(self.status(stop)),
            },
        }
    }

    /// Plays a last line that lacks its feed, where there is one, and hands the output over.
    pub fn finish<K: Sink>(mut self, alloc: Global, input: &Input, sink: &mut K) -> Status
        requires few { self.lines ≤ input.now.read }
        ensures ends { (left left' held : Option (List ℕ))
            → Running left left' held (K.held sink.old) self input.now
            → HasNoFeed (pending_of input.now) → IsSpent left' → Replays result left left' held (K.held sink.new) }
        ensures caused { IsCaused result ⊥ (Rose (K.faults sink.old) (K.faults sink.new)) }
        ensures count { K.faults sink.old ≤ K.faults sink.new }
    {
        let played = self.play_rest(alloc, input.pending());
        match self.hand_over(sink) {
            Written::Failed => Status::WriteFault,
            Written::All => match played {
                Ok(()) => Status::Done,
                Err(stop) => self.status(stop),
            },
        }
    }

    /// Plays the lines that end in these bytes, and answers how many bytes they have.
    fn play_lines(&mut self, alloc: Global, bytes: &[u8]) -> Result<usize, Stop>
        requires few { self.old.lines + length bytes.now < 2 ^ 63 }
        ensures within { IfOk result (λ used. used ≤ length bytes.now) }
        ensures rest { IfOk result (λ used. HasNoFeed (drop used bytes.now)) }
        ensures short { IfOk result (λ used. length (drop used bytes.now) ≤ max_line_bytes) }
        ensures played { (left : Option (List ℕ)) (lines : List (List ℕ)) (written : List ℕ)
            → HasPlayed self.old lines written
            → MatchResult result (λ used. PlayedOn self.new lines written (take used bytes.now))
            (λ stop. StoppedIn stop self.new lines written bytes.now left) }
        ensures count { self.new.lines ≤ self.old.lines + length bytes.now }
    {
        let mut used = 0;
        while let Some(length) = find_feed(&bytes[used..]) {
            let end = used + length;
            self.play_line(alloc, &bytes[used..end])?;
            used = end + 1;
        }
        if bytes.len() - used > MAX_LINE_BYTES {
            return Err(Stop::BadLine);
        }
        Ok(used)
    }

    /// Plays a line, where there is one.
    fn play_rest(&mut self, alloc: Global, rest: &[u8]) -> Result<(), Stop>
        requires few { self.old.lines < 2 ^ 63 }
        ensures played { (left : Option (List ℕ)) (lines : List (List ℕ)) (written : List ℕ)
            → HasNoFeed rest.now
            → IsSpent left → HasPlayed self.old lines written
            → MatchResult result (λ _. PlayedToEnd self.new lines written rest.now)
            (λ stop. StoppedIn stop self.new lines written rest.now left) }
        ensures count { self.new.lines ≤ self.old.lines + 1 }
    {
        if rest.is_empty() {
            return Ok(());
        }
        self.play_line(alloc, rest)
    }

    /// Plays a line, which is given without its line feed.
    fn play_line(&mut self, alloc: Global, line: &[u8]) -> Result<(), Stop>
        requires few { self.old.lines < 2 ^ 63 }
        ensures played { OnOk result ((lines : List (List ℕ)) (written : List ℕ) → HasNoFeed line.now
            → HasPlayed self.old lines written → HasPlayed self.new (line.now ∷ lines) written) }
        ensures bad { result ≡ Err Stop.BadLine → IsBad (setting_in self.old) line.now }
        ensures lines { OnOk result (self.new.lines ≡ self.old.lines + 1) }
        ensures stopped { OnErr result (self.new.lines ≡ self.old.lines) }
        ensures output { OnErr result (self.new.output.items ≡ self.old.output.items) }
    {
        if line.len() > MAX_LINE_BYTES {
            return Err(Stop::BadLine);
        }
        if let Some(step) = read_line(alloc, self.setting(), line)? {
            self.play_step(alloc, step)?;
        }
        self.lines += 1;
        Ok(())
    }

    /// Plays a step, and appends its line of output.
    fn play_step(&mut self, alloc: Global, step: Step) -> Result<(), NoMemory>
        requires { MayPlay (length self.old.player.world.shards) step }
        ensures played { OnOk result (PlaysStep step self.old self.new) }
        ensures lines { self.new.lines ≡ self.old.lines }
        ensures output { OnErr result (self.new.output.items ≡ self.old.output.items) }
    {
        let outcome = self.player.play(alloc, step)?;
        self.is_first = false;
        outcome.write(alloc, &mut self.output)
    }

    /// What the steps so far leave to the next line.
    fn setting(&self) -> Setting
        ensures { result ≡ setting_in self.now }
    {
        Setting {
            shards: self.player.shards(),
            is_first: self.is_first,
        }
    }

    /// Writes the output, and begins a new one.
    fn hand_over<K: Sink>(&mut self, sink: &mut K) -> Written
        ensures put { PutsAll result (K.held sink.old) self.old.output.items (K.held sink.new) }
        ensures emptied { self.new.output.items ≡ [] }
        ensures player { self.new.player ≡ self.old.player }
        ensures is_first { self.new.is_first ≡ self.old.is_first }
        ensures lines { self.new.lines ≡ self.old.lines }
        ensures count { K.faults sink.old ≤ K.faults sink.new }
        ensures cause { result ≡ Written.Failed → Rose (K.faults sink.old) (K.faults sink.new) }
    {
        let written = write_all(sink, &self.output);
        self.output.clear();
        written
    }

    /// How a run ends where the next line isn't played.
    fn status(&self, stop: Stop) -> Status
        requires { self.now.lines < 2 ^ 64 - 1 }
        ensures { result ≡ status_of stop self.now.lines }
    {
        match stop {
            Stop::BadLine => Status::BadLine {
                line: self.lines + 1,
            },
            Stop::NoMemory => Status::NoMemory,
        }
    }
}

/// The place of the first line feed.
fn find_feed(bytes: &[u8]) -> Option<usize>
    ensures { result ≡ position (λ byte. byte == 10) bytes.now }
{
    bytes.iter().position(|byte| *byte == b'\n')
}
