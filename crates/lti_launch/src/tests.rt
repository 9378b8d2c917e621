//! The usual launch of a platform, each fault once, and names of custom parameters. The parameters are those of the
//! Implementation Guide, section 3.
use super::*;
use lti_outside::{Pair, Pairs, Text};
use lti_roles::{ContextRole, RoleName, SystemRole};
use std::alloc::Global;
use std::test::Fail;

type List = &'static [(&'static str, &'static str)];

const USUAL: List = &[
    ("user_id", "2"),
    ("lis_person_sourcedid", ""),
    ("roles", "Instructor,urn:lti:sysrole:ims/lis/Administrator"),
    ("context_id", "3"),
    ("context_label", "LTI101"),
    ("context_title", "LTI Course"),
    ("context_type", "CourseSection"),
    ("resource_link_id", "1"),
    ("resource_link_title", "Quiz"),
    ("lis_result_sourcedid", "3124567"),
    (
        "lis_outcome_service_url",
        "https://lms.example/lti/outcomes",
    ),
    ("lis_person_name_full", "Ada Byron"),
    ("launch_presentation_locale", "en"),
    ("launch_presentation_document_target", "iframe"),
    ("ext_lms", "moodle-2"),
    ("tool_consumer_info_product_family_code", "moodle"),
    ("custom_level", "1"),
    ("oauth_callback", "about:blank"),
    ("oauth_token", ""),
    ("oauth_consumer_key", "12345"),
    ("oauth_nonce", "n1"),
    ("oauth_signature", "x"),
    ("lti_version", "LTI-1p0"),
    ("lti_message_type", "basic-lti-launch-request"),
];

const TYPE: (&str, &str) = ("lti_message_type", "basic-lti-launch-request");

const VERSION: (&str, &str) = ("lti_version", "LTI-1p0");

const LINK: (&str, &str) = ("resource_link_id", "1");

// What the usual launch writes: the parameters in the standard's order, then the others.
const WRITTEN: List = &[
    ("lti_message_type", "basic-lti-launch-request"),
    ("lti_version", "LTI-1p0"),
    ("resource_link_id", "1"),
    ("resource_link_title", "Quiz"),
    ("user_id", "2"),
    ("roles", "Instructor,urn:lti:sysrole:ims/lis/Administrator"),
    ("context_id", "3"),
    ("context_type", "CourseSection"),
    ("context_title", "LTI Course"),
    ("context_label", "LTI101"),
    ("lis_person_name_full", "Ada Byron"),
    ("lis_person_sourcedid", ""),
    ("lis_result_sourcedid", "3124567"),
    (
        "lis_outcome_service_url",
        "https://lms.example/lti/outcomes",
    ),
    ("launch_presentation_locale", "en"),
    ("launch_presentation_document_target", "iframe"),
    ("tool_consumer_info_product_family_code", "moodle"),
    ("custom_level", "1"),
    ("ext_lms", "moodle-2"),
];

const OTHERS: List = &[
    ("custom_b", "2"),
    ("Roles", "x"),
    ("ext_b", "2"),
    ("custom_A", "1"),
    TYPE,
    ("ext_a", "1"),
    ("custom_b", "3"),
    VERSION,
    ("basiclti_submit", "Launch"),
    LINK,
    ("oauth_nonce", "n1"),
    ("Roles", "y"),
];

const FAULTS: [(List, LaunchFault); 12] = [
    (&[], LaunchFault::WrongType),
    (&[VERSION, LINK], LaunchFault::WrongType),
    (
        &[("lti_message_type", "ContentItemSelectionRequest"), TYPE],
        LaunchFault::WrongType,
    ),
    (&[TYPE, LINK], LaunchFault::WrongVersion),
    (
        &[TYPE, ("lti_version", "LTI-1p1"), LINK],
        LaunchFault::WrongVersion,
    ),
    (&[TYPE, VERSION, VERSION], LaunchFault::Missing),
    (
        &[TYPE, VERSION, ("resource_link_id", "")],
        LaunchFault::Missing,
    ),
    (
        &[TYPE, VERSION, LINK, ("resource_link_id", "")],
        LaunchFault::Missing,
    ),
    (
        &[TYPE, TYPE, VERSION, LINK],
        LaunchFault::Repeated(LaunchField::LtiMessageType),
    ),
    (
        &[TYPE, VERSION, LINK, LINK, VERSION],
        LaunchFault::Repeated(LaunchField::LtiVersion),
    ),
    (
        &[
            TYPE,
            VERSION,
            LINK,
            ("context_id", "3"),
            ("context_id", "3"),
        ],
        LaunchFault::Repeated(LaunchField::ContextId),
    ),
    (
        &[
            TYPE,
            VERSION,
            LINK,
            ("roles", ""),
            ("user_id", "2"),
            ("roles", ""),
            ("user_id", "2"),
            ("roles", ""),
        ],
        LaunchFault::Repeated(LaunchField::UserId),
    ),
];

fn pairs(alloc: Global, list: List) -> Result<Pairs, Fail> {
    let mut made = Pairs::new(alloc);
    for (name, value) in list {
        made.push(Pair {
            name: Text::new(alloc, name)?,
            value: Text::new(alloc, value)?,
        })?;
    }
    Ok(made)
}

// The launch that the list spells.
fn launch(alloc: Global, list: List) -> Result<Launch, Fail> {
    Ok(Launch::read(alloc, &pairs(alloc, list)?)?)
}

// The fault of the list, if it has one.
fn fault(alloc: Global, list: List) -> Result<Option<LaunchFault>, Fail> {
    match Launch::read(alloc, &pairs(alloc, list)?) {
        Ok(_) => Ok(None),
        Err(fault) => Ok(Some(fault)),
    }
}

// Whether these are the pairs of the list, in order.
fn are(pairs: &Pairs, list: List) -> bool {
    pairs.len() == list.len()
        && pairs.as_slice().iter().zip(list).all(|(pair, (name, value))| pair.name.get() == *name
            && pair.value.get() == *value)
}

// Whether each parameter of the list has the value that stands there.
fn finds(launch: &Launch, list: List) -> bool {
    for (name, value) in list {
        if let Some(field) = LaunchField::from_name(name) {
            if field.name() != *name || launch.get(field) != Some(*value) {
                return false;
            }
        }
    }
    true
}

// Whether the launch is written as the list, and what is read of it too.
fn is_written(alloc: Global, launch: &Launch, list: List) -> Result<bool, Fail> {
    let written = launch.pairs()?;
    let again = Launch::read(alloc, &written)?.pairs()?;
    Ok(are(&written, list) && are(&again, list))
}

fn holds(launch: &Launch, custom: List, ext: List, rest: List) -> bool {
    are(launch.custom(), custom) && are(launch.ext(), ext) && are(launch.rest(), rest)
}

// Whether an instructor's and an administrator's role are all that the launch has.
fn is_usual(launch: &Launch) -> Result<bool, Fail> {
    let roles = launch.roles()?;
    Ok(
        roles.len() == 2
            && roles.has(RoleName::Context(ContextRole::Instructor))
            && roles.has(RoleName::System(SystemRole::Administrator)),
    )
}

#[test]
fn the_usual_launch_is_read_and_written(rt: HostRuntime) -> Result<(), Fail> {
    let usual = launch(rt.alloc(), USUAL)?;
    assert!(rt; finds(&usual, USUAL));
    assert!(rt;
        usual.get(LaunchField::LisPersonSourcedid) == Some("")
            && usual.get(LaunchField::UserImage) == None
    );
    assert!(rt;
        holds(
            &usual,
            &[("custom_level", "1")],
            &[("ext_lms", "moodle-2")],
            &[]
        )
    );
    assert!(rt; is_usual(&usual)? && is_written(rt.alloc(), &usual, WRITTEN)?);
    Ok(())
}

#[test]
fn other_names_keep_their_order(rt: HostRuntime) -> Result<(), Fail> {
    let others = launch(rt.alloc(), OTHERS)?;
    assert!(rt;
        holds(
            &others,
            &[("custom_b", "2"), ("custom_A", "1"), ("custom_b", "3")],
            &[("ext_b", "2"), ("ext_a", "1")],
            &[
                ("Roles", "x"),
                ("basiclti_submit", "Launch"),
                ("Roles", "y")
            ],
        )
    );
    assert!(rt; others.roles()?.is_empty() && LaunchField::all().len() == 35);
    Ok(())
}

#[test]
fn each_fault_comes_in_its_place(rt: HostRuntime) -> Result<(), Fail> {
    for (list, wanted) in FAULTS {
        assert!(rt; fault(rt.alloc(), list)? == Some(wanted));
    }
    Ok(())
}

#[test]
fn custom_names_are_lower_case(rt: HostRuntime) -> Result<(), Fail> {
    let names = [
        ("Review:Chapter", "custom_review_chapter"),
        ("Größe 2", "custom_gr__e_2"),
        ("", "custom_"),
    ];
    for (text, name) in names {
        let made = custom_name(rt.alloc(), text)?;
        assert!(rt; made.get() == name);
    }
    Ok(())
}
