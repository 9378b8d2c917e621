// What holds of all launch forms.
ghost use Rattle.lti_consumer.specs.Laws.{FormSaysLaunch};

/// A form that `launch_form` makes, posted to its URL, is well signed at the other end and is there the launch of its terms,
/// under the conditions of `oauth_request::signed_is_believed` and where the URL's query has no parameter of a launch.
pub fn a_launch_form_says_its_launch()
    ensures { FormSaysLaunch }
{}
