// What holds of all texts.
ghost use Rattle.lti_roles.specs.Laws.{NamesAreRead, PrintedIsRead};

/// Each name of the vocabulary is read as its role behind its family's prefix, and a context role's also alone, with
/// any sub-role or without one.
pub fn names_are_read()
    ensures { NamesAreRead }
{}

/// Reading what was printed gives the same roles, whatever the text that was read first.
pub fn printed_is_read()
    ensures { PrintedIsRead }
{}
