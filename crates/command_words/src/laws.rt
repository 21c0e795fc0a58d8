//! What the command line is, by examples.
ghost use Rattle.command_words.specs.Examples.{AcceptedExamples, UnacceptedExamples};

/// Words that are accepted, and what they ask for.
pub fn accepted_examples()
    ensures { AcceptedExamples }
{}

/// Words that aren't accepted.
pub fn unaccepted_examples()
    ensures { UnacceptedExamples }
{}
