// The parameters of a launch.
ghost use Rattle.std.specs.Prelude.{◌≡◌, ◌<◌, bytes_eq, slice_get, length, map};
ghost use Rattle.std.specs.List.{find};
ghost use Rattle.lti_launch.specs.Fields.{all_fields, name_of, place_of, fields_of_length};

/// A parameter of a launch (LTI 1.1.1, section 3), in the standard's order.
#[derive(Clone, Copy, Debug, PartialEq, Eq)]
pub enum LaunchField {
    LtiMessageType,
    LtiVersion,
    ResourceLinkId,
    ResourceLinkTitle,
    ResourceLinkDescription,
    UserId,
    UserImage,
    Roles,
    RoleScopeMentor,
    ContextId,
    ContextType,
    ContextTitle,
    ContextLabel,
    LisPersonNameGiven,
    LisPersonNameFamily,
    LisPersonNameFull,
    LisPersonContactEmailPrimary,
    LisPersonSourcedid,
    LisCourseOfferingSourcedid,
    LisCourseSectionSourcedid,
    LisResultSourcedid,
    LisOutcomeServiceUrl,
    LaunchPresentationLocale,
    LaunchPresentationDocumentTarget,
    LaunchPresentationCssUrl,
    LaunchPresentationWidth,
    LaunchPresentationHeight,
    LaunchPresentationReturnUrl,
    ToolConsumerInfoProductFamilyCode,
    ToolConsumerInfoVersion,
    ToolConsumerInstanceGuid,
    ToolConsumerInstanceName,
    ToolConsumerInstanceDescription,
    ToolConsumerInstanceUrl,
    ToolConsumerInstanceContactEmail,
}

const ALL_FIELDS: [LaunchField; 35] = [
    LaunchField::LtiMessageType,
    LaunchField::LtiVersion,
    LaunchField::ResourceLinkId,
    LaunchField::ResourceLinkTitle,
    LaunchField::ResourceLinkDescription,
    LaunchField::UserId,
    LaunchField::UserImage,
    LaunchField::Roles,
    LaunchField::RoleScopeMentor,
    LaunchField::ContextId,
    LaunchField::ContextType,
    LaunchField::ContextTitle,
    LaunchField::ContextLabel,
    LaunchField::LisPersonNameGiven,
    LaunchField::LisPersonNameFamily,
    LaunchField::LisPersonNameFull,
    LaunchField::LisPersonContactEmailPrimary,
    LaunchField::LisPersonSourcedid,
    LaunchField::LisCourseOfferingSourcedid,
    LaunchField::LisCourseSectionSourcedid,
    LaunchField::LisResultSourcedid,
    LaunchField::LisOutcomeServiceUrl,
    LaunchField::LaunchPresentationLocale,
    LaunchField::LaunchPresentationDocumentTarget,
    LaunchField::LaunchPresentationCssUrl,
    LaunchField::LaunchPresentationWidth,
    LaunchField::LaunchPresentationHeight,
    LaunchField::LaunchPresentationReturnUrl,
    LaunchField::ToolConsumerInfoProductFamilyCode,
    LaunchField::ToolConsumerInfoVersion,
    LaunchField::ToolConsumerInstanceGuid,
    LaunchField::ToolConsumerInstanceName,
    LaunchField::ToolConsumerInstanceDescription,
    LaunchField::ToolConsumerInstanceUrl,
    LaunchField::ToolConsumerInstanceContactEmail,
];

// Their names, in order.
const NAMES: [&str; 35] = [
    "lti_message_type",
    "lti_version",
    "resource_link_id",
    "resource_link_title",
    "resource_link_description",
    "user_id",
    "user_image",
    "roles",
    "role_scope_mentor",
    "context_id",
    "context_type",
    "context_title",
    "context_label",
    "lis_person_name_given",
    "lis_person_name_family",
    "lis_person_name_full",
    "lis_person_contact_email_primary",
    "lis_person_sourcedid",
    "lis_course_offering_sourcedid",
    "lis_course_section_sourcedid",
    "lis_result_sourcedid",
    "lis_outcome_service_url",
    "launch_presentation_locale",
    "launch_presentation_document_target",
    "launch_presentation_css_url",
    "launch_presentation_width",
    "launch_presentation_height",
    "launch_presentation_return_url",
    "tool_consumer_info_product_family_code",
    "tool_consumer_info_version",
    "tool_consumer_instance_guid",
    "tool_consumer_instance_name",
    "tool_consumer_instance_description",
    "tool_consumer_instance_url",
    "tool_consumer_instance_contact_email",
];

// The names of all parameters, in order.
#[tactic(auto, unfolding(crate::specs::Fields::all_fields, crate::specs::Fields::name_of))]
fn all_names() -> &'static [&'static str]
    ensures names { map (λ name. name.now) result.now ≡ map name_of all_fields }
    ensures count { length result.now ≡ 35 }
{
    &NAMES
}

// The parameters whose names have so many bytes.
#[tactic(auto, unfolding(crate::specs::Fields::fields_of_length, crate::specs::Fields::all_fields, crate::specs::Fields::name_of))]
fn fields_of_length(count: usize) -> &'static [LaunchField]
    ensures { result.now ≡ Rattle.lti_launch.specs.Fields.fields_of_length count }
{
    use LaunchField::*;
    match count {
        5 => &[Roles],
        7 => &[UserId],
        10 => &[UserImage, ContextId],
        11 => &[LtiVersion],
        12 => &[ContextType],
        13 => &[ContextTitle, ContextLabel],
        16 => &[LtiMessageType, ResourceLinkId],
        17 => &[RoleScopeMentor],
        19 => &[ResourceLinkTitle],
        20 => &[LisPersonNameFull, LisPersonSourcedid, LisResultSourcedid],
        21 => &[LisPersonNameGiven],
        22 => &[LisPersonNameFamily],
        23 => &[LisOutcomeServiceUrl],
        25 => &[ResourceLinkDescription, LaunchPresentationWidth],
        26 => &[
            LaunchPresentationLocale,
            LaunchPresentationHeight,
            ToolConsumerInfoVersion,
            ToolConsumerInstanceUrl,
        ],
        27 => &[
            LaunchPresentationCssUrl,
            ToolConsumerInstanceGuid,
            ToolConsumerInstanceName,
        ],
        28 => &[LisCourseSectionSourcedid],
        29 => &[LisCourseOfferingSourcedid],
        30 => &[LaunchPresentationReturnUrl],
        32 => &[LisPersonContactEmailPrimary],
        34 => &[ToolConsumerInstanceDescription],
        35 => &[LaunchPresentationDocumentTarget],
        36 => &[ToolConsumerInstanceContactEmail],
        38 => &[ToolConsumerInfoProductFamilyCode],
        _ => &[],
    }
}

// Whether the parameter has the name.
fn is_named(field: LaunchField, name: &str) -> bool
    ensures { result ≡ bytes_eq (name_of field) name.now }
{
    field.name() == name
}

// The first of these that has the name.
fn first_named(name: &str, fields: &[LaunchField]) -> Option<LaunchField>
    ensures { result ≡ find (λ field. bytes_eq (name_of field) name.now) fields.now }
{
    fields.iter().copied().find(|field| is_named(*field, name))
}

impl LaunchField {
    /// The parameter's name, as `resource_link_id`.
    pub fn name(self) -> &'static str
        ensures { result.now ≡ name_of self }
    {
        all_names()[self.place()]
    }

    /// The parameter of this name, if it is one. Only names of the same length are compared.
    pub fn from_name(name: &str) -> Option<LaunchField>
        ensures { result ≡ find (λ field. bytes_eq (name_of field) name.now) all_fields }
    {
        first_named(name, fields_of_length(name.len()))
    }

    /// All parameters, in the standard's order.
    #[tactic(auto, unfolding(crate::specs::Fields::all_fields))]
    pub fn all() -> &'static [LaunchField]
        ensures all { result.now ≡ all_fields }
        ensures count { length result.now ≡ 35 }
    {
        &ALL_FIELDS
    }

    // The parameter at a place of the order, which is counted from 0.
    pub(crate) fn at(place: usize) -> Option<LaunchField>
        ensures { result ≡ slice_get all_fields place }
    {
        LaunchField::all().get(place).copied()
    }

    // Where the parameter stands in the order, from 0.
    pub(crate) fn place(self) -> usize
        ensures place { result ≡ place_of self }
        ensures below { result < 35 }
    {
        self as usize
    }
}
