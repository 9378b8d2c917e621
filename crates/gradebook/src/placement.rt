// Where a grade goes.

/// Where the grade of a user of a resource link goes (LTI 1.1.1 section 6).
#[derive(Clone, Copy)]
pub struct Placement<'a> {
    /// The id of the grade, as the last launch gave it (`lis_result_sourcedid`); empty where that launch named no
    /// place.
    pub sourced_id: &'a str,
    /// The address of the service that takes the grade (`lis_outcome_service_url`); empty where that launch
    /// named none.
    pub service: &'a str,
}
