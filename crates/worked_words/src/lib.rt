// Worked examples of the words that the exported calls return, as one statement: every kind of word at each boundary,
// by an input that gives it. A number that is changed in definition and source alike is refused here.
#![tactic(auto)]

ghost use Rattle.worked_words.specs.Host.{HostWordExamples};
ghost use Rattle.worked_words.specs.Personalise.{PersonaliseWordExamples};
ghost use Rattle.worked_words.specs.Cabinet.{CabinetWordExamples};

// The examples hold, over the definitions that the exported calls' promises cite.
pub fn word_examples_hold()
    ensures host { HostWordExamples }
    ensures personalise { PersonaliseWordExamples }
    ensures cabinet { CabinetWordExamples }
{}
