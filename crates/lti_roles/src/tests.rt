//! The vocabulary's names, each once, and lists of roles that are read and printed back.
use crate::{ContextRole, InstitutionRole, Role, RoleName, RoleSet, SystemRole};
use lti_outside::NoMemory;
use std::alloc::Global;
use std::test::Fail;

// Whether the role has this name, sub-role and spelling.
fn is_known(role: Option<&Role>, name: RoleName, sub: &str, text: &str) -> bool {
    match role {
        Some(
            Role::Known {
                name: known,
                sub: told,
                spelled,
            },
        ) => *known == name && told.get() == sub && spelled.get() == text,
        _ => false,
    }
}

// Whether the role is an unknown one of this spelling.
fn is_other(role: Option<&Role>, text: &str) -> bool {
    match role {
        Some(Role::Other { spelled }) => spelled.get() == text,
        _ => false,
    }
}

// Whether the text lists this role alone.
fn is_alone(alloc: Global, text: &str, name: RoleName, sub: &str) -> Result<bool, NoMemory> {
    let roles = RoleSet::read(alloc, text)?;
    Ok(roles.len() == 1 && roles.has(name) && is_known(roles.role(0), name, sub, text))
}

// Whether the list that the text is read as is printed so.
fn is_printed(alloc: Global, text: &str, want: &str) -> Result<bool, NoMemory> {
    let roles = RoleSet::read(alloc, text)?;
    let printed = roles.print()?;
    Ok(printed.get() == want && roles.is_empty() == want.is_empty())
}

#[test]
fn a_list_of_roles_is_read_and_printed(rt: HostRuntime) -> Result<(), Fail> {
    let text =
        "Instructor,urn:lti:sysrole:ims/lis/SysAdmin,urn:lti:role:ims/lis/Learner/GuestLearner,Wizard";
    let learner = RoleName::Context(ContextRole::Learner);
    let instructor = RoleName::Context(ContextRole::Instructor);
    let admin = RoleName::System(SystemRole::SysAdmin);
    let roles = RoleSet::read(rt.alloc(), text)?;
    assert!(rt; roles.len() == 4);
    assert!(rt; is_known(roles.role(0), instructor, "", "Instructor"));
    assert!(rt; is_known(roles.role(1), admin, "", "urn:lti:sysrole:ims/lis/SysAdmin"));
    assert!(rt;
        is_known(
            roles.role(2),
            learner,
            "GuestLearner",
            "urn:lti:role:ims/lis/Learner/GuestLearner"
        )
    );
    assert!(rt; is_other(roles.role(3), "Wizard"));
    assert!(rt; roles.role(4).is_none());
    assert!(rt; roles.has(learner));
    assert!(rt; !roles.has(RoleName::Institution(InstitutionRole::Learner)));
    assert!(rt; is_printed(rt.alloc(), text, text)?);
    Ok(())
}

#[test]
fn each_name_is_known(rt: HostRuntime) -> Result<(), Fail> {
    let names = [
        (
            "urn:lti:role:ims/lis/Learner",
            RoleName::Context(ContextRole::Learner),
        ),
        (
            "urn:lti:role:ims/lis/Instructor",
            RoleName::Context(ContextRole::Instructor),
        ),
        (
            "urn:lti:role:ims/lis/ContentDeveloper",
            RoleName::Context(ContextRole::ContentDeveloper),
        ),
        (
            "urn:lti:role:ims/lis/Member",
            RoleName::Context(ContextRole::Member),
        ),
        ("Manager", RoleName::Context(ContextRole::Manager)),
        ("Mentor", RoleName::Context(ContextRole::Mentor)),
        (
            "Administrator",
            RoleName::Context(ContextRole::Administrator),
        ),
        (
            "TeachingAssistant",
            RoleName::Context(ContextRole::TeachingAssistant),
        ),
        (
            "urn:lti:sysrole:ims/lis/SysAdmin",
            RoleName::System(SystemRole::SysAdmin),
        ),
        (
            "urn:lti:sysrole:ims/lis/SysSupport",
            RoleName::System(SystemRole::SysSupport),
        ),
        (
            "urn:lti:sysrole:ims/lis/Creator",
            RoleName::System(SystemRole::Creator),
        ),
        (
            "urn:lti:sysrole:ims/lis/AccountAdmin",
            RoleName::System(SystemRole::AccountAdmin),
        ),
        (
            "urn:lti:sysrole:ims/lis/User",
            RoleName::System(SystemRole::User),
        ),
        (
            "urn:lti:sysrole:ims/lis/Administrator",
            RoleName::System(SystemRole::Administrator),
        ),
        (
            "urn:lti:sysrole:ims/lis/None",
            RoleName::System(SystemRole::None),
        ),
        (
            "urn:lti:instrole:ims/lis/Student",
            RoleName::Institution(InstitutionRole::Student),
        ),
        (
            "urn:lti:instrole:ims/lis/Faculty",
            RoleName::Institution(InstitutionRole::Faculty),
        ),
        (
            "urn:lti:instrole:ims/lis/Member",
            RoleName::Institution(InstitutionRole::Member),
        ),
        (
            "urn:lti:instrole:ims/lis/Learner",
            RoleName::Institution(InstitutionRole::Learner),
        ),
        (
            "urn:lti:instrole:ims/lis/Instructor",
            RoleName::Institution(InstitutionRole::Instructor),
        ),
        (
            "urn:lti:instrole:ims/lis/Mentor",
            RoleName::Institution(InstitutionRole::Mentor),
        ),
        (
            "urn:lti:instrole:ims/lis/Staff",
            RoleName::Institution(InstitutionRole::Staff),
        ),
        (
            "urn:lti:instrole:ims/lis/Alumni",
            RoleName::Institution(InstitutionRole::Alumni),
        ),
        (
            "urn:lti:instrole:ims/lis/ProspectiveStudent",
            RoleName::Institution(InstitutionRole::ProspectiveStudent),
        ),
        (
            "urn:lti:instrole:ims/lis/Guest",
            RoleName::Institution(InstitutionRole::Guest),
        ),
        (
            "urn:lti:instrole:ims/lis/Other",
            RoleName::Institution(InstitutionRole::Other),
        ),
        (
            "urn:lti:instrole:ims/lis/Administrator",
            RoleName::Institution(InstitutionRole::Administrator),
        ),
        (
            "urn:lti:instrole:ims/lis/Observer",
            RoleName::Institution(InstitutionRole::Observer),
        ),
        (
            "urn:lti:instrole:ims/lis/None",
            RoleName::Institution(InstitutionRole::None),
        ),
    ];
    for (text, name) in names {
        assert!(rt; is_alone(rt.alloc(), text, name, "")?);
    }
    Ok(())
}

#[test]
fn a_sub_role_is_any_text(rt: HostRuntime) -> Result<(), Fail> {
    for (text, sub) in [
        ("Learner/GuestLearner", "GuestLearner"),
        ("urn:lti:role:ims/lis/Learner/a/b", "a/b"),
        ("Learner//", "/"),
        ("Learner/ é", " é"),
    ] {
        let learner = RoleName::Context(ContextRole::Learner);
        assert!(rt; is_alone(rt.alloc(), text, learner, sub)?);
    }
    Ok(())
}

#[test]
fn other_elements_are_kept(rt: HostRuntime) -> Result<(), Fail> {
    for text in [
        "Wizard",
        "Learner/",
        "urn:lti:role:ims/lis/Learner/",
        "urn:lti:role:ims/lis/",
        "urn:lti:role:ims/lis",
        "urn:lti:role:ims/lis/SysAdmin",
        "urn:lti:sysrole:ims/lis/Learner",
        "SysAdmin",
        "learner",
        "URN:lti:role:ims/lis/Learner",
        "\tLearner",
        "Learner x",
        "Learn",
        "Learners",
        "/Learner",
        "/",
    ] {
        let roles = RoleSet::read(rt.alloc(), text)?;
        assert!(rt; roles.len() == 1 && is_other(roles.role(0), text));
    }
    Ok(())
}

#[test]
fn spaces_and_empty_elements_are_dropped(rt: HostRuntime) -> Result<(), Fail> {
    for (text, want) in [
        ("", ""),
        ("  ", ""),
        (" ,, ,", ""),
        ("  Learner ", "Learner"),
        (",Learner,, Mentor ,", "Learner,Mentor"),
        (" a b , c", "a b,c"),
        ("\t, x", "\t,x"),
    ] {
        assert!(rt; is_printed(rt.alloc(), text, want)?);
    }
    Ok(())
}
