// The names of roles (LTI 1.1.1, appendix A).

/// A role in a course (LTI 1.1.1, appendix A.2), spelled behind `urn:lti:role:ims/lis/` or alone.
#[derive(Clone, Copy, Debug, PartialEq, Eq)]
pub enum ContextRole {
    Learner,
    Instructor,
    ContentDeveloper,
    Member,
    Manager,
    Mentor,
    Administrator,
    TeachingAssistant,
}

/// A role in the whole system (LTI 1.1.1, appendix A.1.2), spelled behind `urn:lti:sysrole:ims/lis/`.
#[derive(Clone, Copy, Debug, PartialEq, Eq)]
pub enum SystemRole {
    SysAdmin,
    SysSupport,
    Creator,
    AccountAdmin,
    User,
    Administrator,
    None,
}

/// A role in an institution (LTI 1.1.1, appendix A.1.3), spelled behind `urn:lti:instrole:ims/lis/`.
#[derive(Clone, Copy, Debug, PartialEq, Eq)]
pub enum InstitutionRole {
    Student,
    Faculty,
    Member,
    Learner,
    Instructor,
    Mentor,
    Staff,
    Alumni,
    ProspectiveStudent,
    Guest,
    Other,
    Administrator,
    Observer,
    None,
}

/// A role of the vocabulary with its family. Two families may share a name, as `Learner`, and these are two roles.
#[derive(Clone, Copy, Debug, PartialEq, Eq)]
pub enum RoleName {
    Context(ContextRole),
    System(SystemRole),
    Institution(InstitutionRole),
}
