// The vocabulary's texts.

use crate::{ContextRole, InstitutionRole, RoleName, SystemRole};

/// A text of the vocabulary with its role.
pub(crate) type Named = (&'static str, RoleName);

pub(crate) const CONTEXT_PREFIX: &str = "urn:lti:role:ims/lis/";

pub(crate) const SYSTEM_PREFIX: &str = "urn:lti:sysrole:ims/lis/";

pub(crate) const INSTITUTION_PREFIX: &str = "urn:lti:instrole:ims/lis/";

pub(crate) const CONTEXT_NAMES: [Named; 8] = [
    ("Learner", RoleName::Context(ContextRole::Learner)),
    ("Instructor", RoleName::Context(ContextRole::Instructor)),
    (
        "ContentDeveloper",
        RoleName::Context(ContextRole::ContentDeveloper),
    ),
    ("Member", RoleName::Context(ContextRole::Member)),
    ("Manager", RoleName::Context(ContextRole::Manager)),
    ("Mentor", RoleName::Context(ContextRole::Mentor)),
    (
        "Administrator",
        RoleName::Context(ContextRole::Administrator),
    ),
    (
        "TeachingAssistant",
        RoleName::Context(ContextRole::TeachingAssistant),
    ),
];

pub(crate) const SYSTEM_NAMES: [Named; 7] = [
    ("SysAdmin", RoleName::System(SystemRole::SysAdmin)),
    ("SysSupport", RoleName::System(SystemRole::SysSupport)),
    ("Creator", RoleName::System(SystemRole::Creator)),
    ("AccountAdmin", RoleName::System(SystemRole::AccountAdmin)),
    ("User", RoleName::System(SystemRole::User)),
    ("Administrator", RoleName::System(SystemRole::Administrator)),
    ("None", RoleName::System(SystemRole::None)),
];

pub(crate) const INSTITUTION_NAMES: [Named; 14] = [
    ("Student", RoleName::Institution(InstitutionRole::Student)),
    ("Faculty", RoleName::Institution(InstitutionRole::Faculty)),
    ("Member", RoleName::Institution(InstitutionRole::Member)),
    ("Learner", RoleName::Institution(InstitutionRole::Learner)),
    (
        "Instructor",
        RoleName::Institution(InstitutionRole::Instructor),
    ),
    ("Mentor", RoleName::Institution(InstitutionRole::Mentor)),
    ("Staff", RoleName::Institution(InstitutionRole::Staff)),
    ("Alumni", RoleName::Institution(InstitutionRole::Alumni)),
    (
        "ProspectiveStudent",
        RoleName::Institution(InstitutionRole::ProspectiveStudent),
    ),
    ("Guest", RoleName::Institution(InstitutionRole::Guest)),
    ("Other", RoleName::Institution(InstitutionRole::Other)),
    (
        "Administrator",
        RoleName::Institution(InstitutionRole::Administrator),
    ),
    ("Observer", RoleName::Institution(InstitutionRole::Observer)),
    ("None", RoleName::Institution(InstitutionRole::None)),
];
