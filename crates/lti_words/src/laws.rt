// What holds of all words.
ghost use Rattle.lti_words.specs.Command.{AsksOnce, ServingIsNoCommand};

/// Words ask for one command at most, and for one thing of it.
pub fn words_ask_once()
    ensures { AsksOnce }
{}

/// Words that ask to serve are no command.
pub fn serving_is_no_command()
    ensures { ServingIsNoCommand }
{}
