// How a session says what it answers, and the answers that change its rules or tell of it.
ghost use Rattle.std.specs.Prelude.{◌≡◌, ◌<◌, false, IfOk, IsTrue, Ok};
ghost use Rattle.resolver_model.specs.Histories.{rules_at, marked};
ghost use Rattle.resolver_model.specs.Rules.{set_mark, set_cap};
ghost use Rattle.resolver_model.specs.Legal.{Follows};
ghost use Rattle.resolver_model.specs.Problems.{is_choice};
ghost use Rattle.resolver_model.specs.declared.history.Entry.TheVariants.{Say};
ghost use Rattle.search_core.specs.Sessions.{with_entry, with_room, IsFor, HasRoom, IsQuiet, said_after, IsAnswer, after_answer};

use super::Session;
use crate::jobs::{Answer, Said};
use crate::telling::{caps_of, count_choices, marks_of};
use basis::Basis;
use choice_set::NoMemory;
use resolver_model::{BadLine, Command, Mark, Reply};
use std::alloc::Global;
use user_rules::Rules;

impl Session {
    // What is said with a reply that was added.
    pub(super) fn said(&self, reply: Reply) -> Answer
        ensures { result ≡ said_after self.now.history reply }
    {
        let cursor = self.ledger.cursor();
        let deliveries = self.given.len() as u64;
        Answer::Said(Said {
            reply,
            cursor,
            deliveries,
        })
    }

    // Adds an answer after which rules, deliveries and lines are as before. It takes no memory.
    fn speak(&mut self, actor: u32, command: Command, reply: Reply)
        requires follows { Follows self.old.setting self.old.history (Say actor command reply) }
        requires room { HasRoom self.old actor }
        requires quiet { IsQuiet self.old.setting self.old.history command reply }
        ensures { self.new ≡ with_room (with_entry self.old (Say actor command reply)) actor false }
    {
        self.ledger.say(actor, command, reply);
    }

    // Answers with a reply after which rules, deliveries and lines are as before. It takes no memory.
    pub(super) fn tell(
        &mut self,
        actor: u32,
        command: Command,
        reply: Reply,
        again: Reply,
    ) -> Answer
        requires follows { Follows self.old.setting self.old.history (Say actor command reply) }
        requires room { HasRoom self.old actor }
        requires quiet { IsQuiet self.old.setting self.old.history command reply }
        requires again { again ≡ reply }
        ensures answer { IsAnswer self.old.setting self.old.history actor command result }
        ensures after { self.new ≡ after_answer self.old actor command (Ok result) }
    {
        self.speak(actor, command, reply);
        self.said(again)
    }

    // Answers a command that changes the rules, with the rules as they are after it. It takes no memory.
    fn change(&mut self, actor: u32, command: Command, rules: Rules) -> Answer
        requires follows { Follows self.old.setting self.old.history (Say actor command Reply.Marked) }
        requires room { HasRoom self.old actor }
        requires rules { rules ≡ marked (rules_at self.old.setting.first_rules self.old.history) command }
        ensures answer { IsAnswer self.old.setting self.old.history actor command result }
        ensures after { self.new ≡ after_answer self.old actor command (Ok result) }
    {
        self.turn(actor, command, rules);
        self.said(Reply::Marked)
    }

    // Adds the answer to a command that changes the rules.
    fn turn(&mut self, actor: u32, command: Command, rules: Rules)
        requires follows { Follows self.old.setting self.old.history (Say actor command Reply.Marked) }
        requires room { HasRoom self.old actor }
        requires rules { rules ≡ marked (rules_at self.old.setting.first_rules self.old.history) command }
        ensures { self.new ≡ with_room (with_entry self.old (Say actor command Reply.Marked)) actor false }
    {
        self.rules = rules;
        self.ledger.say(actor, command, Reply::Marked);
    }

    // Answers that the dialogue ends. It takes no memory.
    pub(super) fn quit(&mut self, actor: u32) -> Answer
        requires actor { actor < self.old.setting.actors }
        requires room { HasRoom self.old actor }
        ensures answer { IsAnswer self.old.setting self.old.history actor Command.Quit result }
        ensures after { self.new ≡ after_answer self.old actor Command.Quit (Ok result) }
    {
        self.tell(actor, Command::Quit, Reply::Ended, Reply::Ended)
    }

    // Answers a line that is no command. It takes no memory.
    pub(super) fn misread(&mut self, actor: u32, kind: BadLine) -> Answer
        requires actor { actor < self.old.setting.actors }
        requires room { HasRoom self.old actor }
        ensures answer { IsAnswer self.old.setting self.old.history actor (Command.Bad kind) result }
        ensures after { self.new ≡ after_answer self.old actor (Command.Bad kind) (Ok result) }
    {
        self.tell(
            actor,
            Command::Bad(kind),
            Reply::Misread { kind },
            Reply::Misread { kind },
        )
    }

    // Rejects a choice.
    pub(super) fn reject(
        &mut self,
        alloc: Global,
        actor: u32,
        choice: u32,
    ) -> Result<Answer, NoMemory>
        requires actor { actor < self.old.setting.actors }
        requires choice { IsTrue (is_choice self.old.setting.problem choice) }
        requires room { HasRoom self.old actor }
        ensures answer { IfOk result (IsAnswer self.old.setting self.old.history actor (Command.Reject choice)) }
        ensures after { self.new ≡ after_answer self.old actor (Command.Reject choice) result }
    {
        let rules = self.marked(alloc, choice, Mark::Rejected)?;
        Ok(self.change(actor, Command::Reject(choice), rules))
    }

    // Approves a choice.
    pub(super) fn approve(
        &mut self,
        alloc: Global,
        actor: u32,
        choice: u32,
    ) -> Result<Answer, NoMemory>
        requires actor { actor < self.old.setting.actors }
        requires choice { IsTrue (is_choice self.old.setting.problem choice) }
        requires room { HasRoom self.old actor }
        ensures answer { IfOk result (IsAnswer self.old.setting self.old.history actor (Command.Approve choice)) }
        ensures after { self.new ≡ after_answer self.old actor (Command.Approve choice) result }
    {
        let rules = self.marked(alloc, choice, Mark::Approved)?;
        Ok(self.change(actor, Command::Approve(choice), rules))
    }

    // Takes a mark off a choice.
    pub(super) fn free(
        &mut self,
        alloc: Global,
        actor: u32,
        choice: u32,
    ) -> Result<Answer, NoMemory>
        requires actor { actor < self.old.setting.actors }
        requires choice { IsTrue (is_choice self.old.setting.problem choice) }
        requires room { HasRoom self.old actor }
        ensures answer { IfOk result (IsAnswer self.old.setting self.old.history actor (Command.Free choice)) }
        ensures after { self.new ≡ after_answer self.old actor (Command.Free choice) result }
    {
        let rules = self.marked(alloc, choice, Mark::Free)?;
        Ok(self.change(actor, Command::Free(choice), rules))
    }

    // The rules with a mark on a choice.
    fn marked(&self, alloc: Global, choice: u32, mark: Mark) -> Result<Rules, NoMemory>
        ensures { IfOk result (λ rules. rules ≡ set_mark (rules_at self.now.setting.first_rules self.now.history) choice mark) }
    {
        let mut rules = self.rules.copy(alloc)?;
        rules.set(alloc, choice, mark)?;
        Ok(rules)
    }

    // The rules with a cap on a level, or with none there.
    fn capped(&self, alloc: Global, level: u32, most: Option<u64>) -> Result<Rules, NoMemory>
        ensures { IfOk result (λ rules. rules ≡ set_cap (rules_at self.now.setting.first_rules self.now.history) level most) }
    {
        let mut rules = self.rules.copy(alloc)?;
        rules.cap(level, most)?;
        Ok(rules)
    }

    // Sets a cap or takes it off, where costs have the level.
    pub(super) fn cap(
        &mut self,
        alloc: Global,
        basis: &Basis,
        actor: u32,
        level: u32,
        most: Option<u64>,
    ) -> Result<Answer, NoMemory>
        requires basis { IsFor self.old basis.now.problem basis.now.table }
        requires actor { actor < self.old.setting.actors }
        requires room { HasRoom self.old actor }
        ensures answer { IfOk result (IsAnswer self.old.setting self.old.history actor (Command.Cap level most)) }
        ensures after { self.new ≡ after_answer self.old actor (Command.Cap level most) result }
    {
        if level as usize > basis.table.levels() {
            return Ok(self.tell(
                actor,
                Command::Cap { level, most },
                Reply::NoLevel,
                Reply::NoLevel,
            ));
        }
        let rules = self.capped(alloc, level, most)?;
        Ok(self.change(actor, Command::Cap { level, most }, rules))
    }

    // Answers with the marks and the caps.
    pub(super) fn rules(&mut self, alloc: Global, actor: u32) -> Result<Answer, NoMemory>
        requires actor { actor < self.old.setting.actors }
        requires room { HasRoom self.old actor }
        ensures answer { IfOk result (IsAnswer self.old.setting self.old.history actor Command.Rules) }
        ensures after { self.new ≡ after_answer self.old actor Command.Rules result }
    {
        let marks = marks_of(alloc, self.rules.marked(alloc)?)?;
        let caps = caps_of(alloc, self.rules.caps(alloc)?)?;
        let more_marks = marks_of(alloc, self.rules.marked(alloc)?)?;
        let more_caps = caps_of(alloc, self.rules.caps(alloc)?)?;
        let reply = Reply::Rules { marks, caps };
        Ok(self.tell(
            actor,
            Command::Rules,
            reply,
            Reply::Rules {
                marks: more_marks,
                caps: more_caps,
            },
        ))
    }

    // Answers with the count of deliveries, and how many choices they have in all. It takes no memory.
    pub(super) fn summary(&mut self, actor: u32) -> Answer
        requires actor { actor < self.old.setting.actors }
        requires room { HasRoom self.old actor }
        ensures answer { IsAnswer self.old.setting self.old.history actor Command.Summary result }
        ensures after { self.new ≡ after_answer self.old actor Command.Summary (Ok result) }
    {
        let deliveries = self.given.len() as u64;
        let choices = count_choices(self.given.as_slice());
        self.tell(
            actor,
            Command::Summary,
            Reply::Summary {
                deliveries,
                choices,
            },
            Reply::Summary {
                deliveries,
                choices,
            },
        )
    }
}
