// What holds of all launch forms, and of all reports.
ghost use Rattle.lti_operator.specs.Laws.{LaunchIsNoted};
ghost use Rattle.lti_operator.specs.ReportLaw.{TotalIsNear};

/// A form that `lti_consumer::launch_form` makes, posted to its URL, is well signed at the tool's end, whose machine is asked to
/// note exactly the launch of its terms, under the conditions of `oauth_request::signed_is_believed` and where the URL's query
/// has no parameter of a launch.
pub fn launch_is_noted()
    ensures { LaunchIsNoted }
{}

/// The total of a report is less than the number of grades away from the exact sum of the shares, and 0 where there is no
/// grade.
pub fn total_is_near()
    ensures { TotalIsNear }
{}
