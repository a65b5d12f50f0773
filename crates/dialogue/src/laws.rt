// Laws of lines and texts. They compute nothing: a contract is a law.
ghost use Rattle.std.specs.Prelude.{◌≡◌, ℕ, List, IsTrue};
ghost use Rattle.std.specs.List.{list_all};
ghost use Rattle.ascii.specs.Texts.{words};
ghost use Rattle.resolver_model.specs.Problems.{Problem};
ghost use Rattle.resolver_model.specs.Costs.{Table};
ghost use Rattle.resolver_model.specs.declared.history.Command.{Command};
ghost use Rattle.resolver_model.specs.declared.history.Reply.{Reply};
ghost use Rattle.universe_model.specs.Limits.{AreWithin};
ghost use Rattle.universe_model.specs.Reading.{Texts};
ghost use Rattle.universe_model.specs.Universes.{IsProblemOf, universe};
ghost use Rattle.dialogue.specs.Alphabet.{is_printed};
ghost use Rattle.dialogue.specs.Lines.{command_of};
ghost use Rattle.dialogue.specs.Sayings.{line_of, HasLine};
ghost use Rattle.dialogue.specs.Texts.{greeting, prompt, reply_text};

/// A law: where two texts are no longer than a file may be, a line with the words of a command is read as that command, for
/// every choice of every problem beside their universe, whatever spaces and tabs stand round the words.
pub fn lines_say_commands()
    ensures { (texts : Texts) → AreWithin texts → (p : Problem) → IsProblemOf (universe texts) p → (said : Command) → HasLine p said
        → (line : List ℕ) → words line ≡ words (line_of (universe texts) p said) → command_of (universe texts) p line ≡ said }
{}

/// Laws: the texts of the dialogue are made of visible bytes of ASCII, spaces and newlines. For replies this is so where the two
/// texts of the universe are no longer than a file may be.
pub fn texts_are_printed()
    ensures greeting { (p : Problem) → IsTrue (list_all is_printed (greeting p)) }
    ensures prompt { (cursor deliveries : ℕ) → IsTrue (list_all is_printed (prompt cursor deliveries)) }
    ensures reply { (texts : Texts) → AreWithin texts → (p : Problem) → IsProblemOf (universe texts) p → (table : Table) (reply : Reply)
        → IsTrue (list_all is_printed (reply_text (universe texts) p table reply)) }
{}
