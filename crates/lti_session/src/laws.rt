// Laws over whole connections.
ghost use Rattle.lti_session.specs.Laws.{CutsDoNotMatter, WhatBelongsIsAnswered};

/// Two connections that give the same bytes, in whatever pieces, with the same replies of the machine, are answered by the
/// same bytes and end alike.
pub fn cuts_do_not_matter()
    ensures { CutsDoNotMatter }
{}

/// Each reply that belongs to the call of an `Ask::Call` can be told by `Session::tell`; the machine answers a call by no
/// other.
pub fn what_belongs_is_answered()
    ensures { WhatBelongsIsAnswered }
{}
