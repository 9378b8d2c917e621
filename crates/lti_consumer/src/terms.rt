// What a launch is issued with.
use lti_outside::Text;

/// What a launch is issued with. A text that is empty stands for a parameter that the launch doesn't have, the link apart.
#[derive(Drop)]
pub struct Terms {
    /// The link from which the tool is started, as `resource_link_id` (LTI 1.1.1, section 3). It isn't empty.
    pub link: Text,
    /// The user who starts the tool, as `user_id` (section 3).
    pub user: Text,
    /// Where a grade of this user and link goes, as `lis_result_sourcedid` (section 6).
    pub sourced_id: Text,
    /// The address of the service that takes grades, as `lis_outcome_service_url` (section 6).
    pub service: Text,
}
