ghost use Rattle.std.specs.Prelude.{◌≡◌, ◌∷◌, List, ℕ, MatchOption, codes};
ghost use Rattle.dlupdate.specs.Commands as commands;
ghost use Rattle.dlupdate.specs.Commands.{Says, words_of};
ghost use Rattle.dlupdate.specs.Held.{said};

/// The most updates of a script.
const MOST_UPDATES: usize = 1_000;

/// A command, with the names of its files.
#[derive(Clone, Copy, Debug)]
pub enum Command<'w> {
    /// Whether the opening facts are consistent.
    Check {
        ontology: &'w str,
        facts: Option<&'w str>,
    },
    /// One update, over the ontology's own assertions.
    Apply {
        ontology: &'w str,
        updates: &'w [String],
    },
    /// Updates one after another.
    Script {
        ontology: &'w str,
        facts: &'w str,
        updates: &'w [String],
    },
}

/// The command of the words: `check ONTOLOGY [FACTS]`, `apply ONTOLOGY UPDATE`, or `script ONTOLOGY FACTS UPDATE [UPDATE ..]` with at most
/// 1,000 updates. `None` where they are none of these.
pub fn command_of(words: &[String]) -> Option<Command<'_>>
    ensures { MatchOption result ((c : commands.Command) → ¬ Says (words_of words.now) c) (λ command. Says (words_of words.now) (said command)) }
{
    let Some((command, names)) = words.split_first() else {
        return None;
    };
    let Some((ontology, rest)) = names.split_first() else {
        return None;
    };
    if command.as_str() == "check" {
        return check_of(ontology.as_str(), rest);
    }
    if command.as_str() == "apply" {
        return apply_of(ontology.as_str(), rest);
    }
    if command.as_str() == "script" {
        return script_of(ontology.as_str(), rest);
    }
    None
}

fn check_of<'w>(ontology: &'w str, rest: &'w [String]) -> Option<Command<'w>>
    ensures { (words : List (List ℕ)) → words ≡ codes "check" ∷ ontology.now ∷ words_of rest.now
        → MatchOption result ((c : commands.Command) → ¬ Says words c) (λ command. Says words (said command)) }
{
    let Some((facts, more)) = rest.split_first() else {
        return Some(Command::Check {
            ontology,
            facts: None,
        });
    };
    if !more.is_empty() {
        return None;
    }
    Some(Command::Check {
        ontology,
        facts: Some(facts.as_str()),
    })
}

fn apply_of<'w>(ontology: &'w str, rest: &'w [String]) -> Option<Command<'w>>
    ensures { (words : List (List ℕ)) → words ≡ codes "apply" ∷ ontology.now ∷ words_of rest.now
        → MatchOption result ((c : commands.Command) → ¬ Says words c) (λ command. Says words (said command)) }
{
    if rest.len() != 1 {
        return None;
    }
    Some(Command::Apply {
        ontology,
        updates: rest,
    })
}

fn script_of<'w>(ontology: &'w str, rest: &'w [String]) -> Option<Command<'w>>
    ensures { (words : List (List ℕ)) → words ≡ codes "script" ∷ ontology.now ∷ words_of rest.now
        → MatchOption result ((c : commands.Command) → ¬ Says words c) (λ command. Says words (said command)) }
{
    let Some((facts, updates)) = rest.split_first() else {
        return None;
    };
    if updates.is_empty() || updates.len() > MOST_UPDATES {
        return None;
    }
    Some(Command::Script {
        ontology,
        facts: facts.as_str(),
        updates,
    })
}
