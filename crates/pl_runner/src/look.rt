//! A step of a runner without work: one turn.
ghost use Rattle.std.specs.Prelude.{◌≡◌, ◌-◌, ◌^◌, ◌<◌, ◌≤◌, vec_len};
ghost use Rattle.pl_epochs.specs.Words.{table_of};
ghost use Rattle.pl_runner.specs.Looked.{CountsCall, IfCalled, IsStepOf, TakesUp};
ghost use Rattle.pl_runner.specs.Closing.{epochs_of};
ghost use Rattle.pl_runner.specs.Causes.{MayGoOn};
ghost use Rattle.pl_runner.specs.Running.{IsAt, IsIdle, IsReady, actor_of, own_of, seen_by, stopped_of};
ghost use Rattle.pl_runner.specs.Stepping.{HasCome, HasMoved, HasWaited, Keeps, MatchStep, MayGoOnUnlessEnded, UnlessMemory};

use crate::idle::idle_turn;
use crate::runner::{Hands, Started};
use crate::{Looked, Runner, Step};
use pl_epochs::EpochTable;
use pl_plant::Plant;
use pl_ports::{Gate, Point};
use pl_tech::Technology;
use pl_turn::TurnLock;
use std::alloc::Global;
use std::sync::Wait;

impl<T: Technology> Runner<T> {
    // Takes up what its turn came to. A session that has made a call passes the gate.
    fn take_up<G: Gate>(&mut self, looked: Looked<T>, gate: &G) -> Step
        requires few { vec_len self.old.commands ≤ 2 ^ 32 - 1 }
        requires called { IfCalled looked (self.old.made < vec_len self.old.commands) }
        ensures step { IsStepOf looked result }
        ensures made { CountsCall self.old.made self.new.made looked }
        ensures started { TakesUp self.old.started self.new.started looked }
        ensures actor { self.new.actor ≡ self.old.actor }
        ensures hands { self.new.hands ≡ self.old.hands }
        ensures bench { self.new.bench ≡ self.old.bench }
        ensures commands { self.new.commands ≡ self.old.commands }
        ensures stopped { self.new.stopped ≡ self.old.stopped }
    {
        match looked {
            Looked::Called => {
                self.made += 1;
                gate.pass(self.actor, Point::Answered(self.made as u32));
                Step::Moved
            }
            Looked::Begun(ticket, job) => {
                self.started = Some(Started {
                    slot: ticket.slot,
                    epoch: ticket.epoch,
                    job,
                });
                Step::Moved
            }
            Looked::Ended => Step::Ended,
            Looked::Waits => Step::Waits,
            Looked::NoMemory => Step::NoMemory,
        }
    }

    // A step without work: a session's call or bye, or a start, or nothing.
    pub(crate) fn look<R: Wait, G: Gate>(
        &mut self,
        rt: &R,
        alloc: Global,
        lock: &TurnLock<Plant<T>>,
        epochs: &EpochTable,
        sessions: u32,
        gate: &G,
    ) -> Step
        requires home { epochs_of lock.now ≡ table_of epochs.now }
        requires ready { IsReady T.meaning T.job_value T.runs lock.now (table_of epochs.now) self.old }
        requires free { IsIdle self.old }
        requires stays { MayGoOn (actor_of self.old) (seen_by self.old) }
        ensures keeps { Keeps self.old self.new }
        ensures at { IsAt lock.now (table_of epochs.now) self.new }
        ensures ready { UnlessMemory result (IsReady T.meaning T.job_value T.runs lock.now (table_of epochs.now) self.new) }
        ensures stays { MayGoOnUnlessEnded result self.new }
        ensures idle { MatchStep result (Unit {0}) (IsIdle self.new) (IsIdle self.new) (Unit {0}) }
        ensures moved { MatchStep result (HasMoved self.old self.new) (Unit {0}) (Unit {0}) (Unit {0}) }
        ensures waits { MatchStep result (Unit {0}) (HasWaited T.meaning sessions self.old self.new) (Unit {0}) (Unit {0}) }
        ensures ended { MatchStep result (Unit {0}) (Unit {0}) (HasCome T.meaning sessions self.old self.new) (Unit {0}) }
        ensures memory { MatchStep result (Unit {0}) (Unit {0}) (Unit {0}) (own_of self.new ≡ own_of self.old) }
        ensures stopped { stopped_of self.new ≡ stopped_of self.old }
    {
        let Some(Hands { pass, reader }) = self.hands.take() else {
            unreachable!()
        };
        let (looked, pass) = idle_turn(
            rt,
            alloc,
            lock,
            epochs,
            pass,
            self.actor,
            &self.commands,
            self.made,
            sessions,
        );
        self.hands = Some(Hands { pass, reader });
        self.take_up(looked, gate)
    }
}
