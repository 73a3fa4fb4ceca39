// Worked examples of the rules of a session, as one statement: for each pair of reasons and each pair of refusals that
// can meet in one call an input that has both, and an input for each rule that no other promise distinguishes from a
// wrong one. A rule that is changed in definition and source alike is refused here.
#![tactic(auto)]

ghost use Rattle.worked_examples.specs.Gpo.{GpoExamples};
ghost use Rattle.worked_examples.specs.Records.{RecordExamples, MagStripeExamples};
ghost use Rattle.worked_examples.specs.Cryptogram.{CryptogramExamples};
ghost use Rattle.worked_examples.specs.Checksum.{ChecksumExamples};
ghost use Rattle.worked_examples.specs.Encodings.{EncodingExamples};
ghost use Rattle.worked_examples.specs.Lists.{DolExamples};
ghost use Rattle.worked_examples.specs.Refusals.{RefusalExamples};
ghost use Rattle.worked_examples.specs.Journal.{JournalExamples};
ghost use Rattle.worked_examples.specs.CallLists.{CallListExamples};

// The examples hold, over the definitions that the calls' promises cite.
pub fn examples_hold()
    ensures gpo { GpoExamples }
    ensures records { RecordExamples }
    ensures mag_stripe { MagStripeExamples }
    ensures cryptogram { CryptogramExamples }
    ensures checksum { ChecksumExamples }
    ensures encodings { EncodingExamples }
    ensures lists { DolExamples }
    ensures refusals { RefusalExamples }
    ensures journal { JournalExamples }
    ensures call_lists { CallListExamples }
{}
