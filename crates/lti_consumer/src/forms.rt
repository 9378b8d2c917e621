// Forms that start a tool.
ghost use Rattle.std.specs.Prelude.{◌≡◌, ◌≤◌, ◌∷◌, ◌++◌, [], length, IfOk, OnOk};
ghost use Rattle.oauth_text.specs.UrlView.{parts_of};
ghost use Rattle.oauth_request.specs.Signing.{CanSign, IsSignedForm};
ghost use Rattle.lti_launch.specs.Fields.{name_of};
ghost use Rattle.lti_asks.specs.Launches.{IsLaunchCall};
ghost use Rattle.lti_consumer.specs.Launches as spec;

use crate::Terms;
use lti_launch::LaunchField;
use lti_outside::{NoMemory, Pair, Pairs, Text};
use oauth_request::sign_form;
use oauth_text::Url;
use std::alloc::Global;

// Appends a parameter.
fn push(fields: &mut Pairs, alloc: Global, field: LaunchField, value: &str) -> Result<(), NoMemory>
    ensures { OnOk result (fields.new ≡ fields.old ++ (record { name = name_of field; value = value.now }) ∷ []) }
{
    fields.push(Pair {
        name: Text::new(alloc, field.name())?,
        value: Text::new(alloc, value)?,
    })
}

// Appends a parameter, unless its text is empty.
fn push_given(
    fields: &mut Pairs,
    alloc: Global,
    field: LaunchField,
    text: &str,
) -> Result<(), NoMemory>
    ensures { OnOk result (fields.new ≡ fields.old ++ spec.given field text.now) }
{
    if text.is_empty() {
        return Ok(());
    }
    push(fields, alloc, field, text)
}

// The parameters of a launch with these terms.
#[tactic(auto, unfolding(crate::specs::Launches::launch_fields, lti_launch::specs::Faults::launch_type, lti_launch::specs::Faults::launch_version))]
fn launch_fields(alloc: Global, terms: &Terms) -> Result<Pairs, NoMemory>
    ensures { IfOk result (λ fields. fields ≡ spec.launch_fields terms.now) }
{
    let mut fields = Pairs::new(alloc);
    push(
        &mut fields,
        alloc,
        LaunchField::LtiMessageType,
        "basic-lti-launch-request",
    )?;
    push(&mut fields, alloc, LaunchField::LtiVersion, "LTI-1p0")?;
    push(
        &mut fields,
        alloc,
        LaunchField::ResourceLinkId,
        terms.link.get(),
    )?;
    push_given(&mut fields, alloc, LaunchField::UserId, terms.user.get())?;
    push_given(
        &mut fields,
        alloc,
        LaunchField::LisResultSourcedid,
        terms.sourced_id.get(),
    )?;
    push_given(
        &mut fields,
        alloc,
        LaunchField::LisOutcomeServiceUrl,
        terms.service.get(),
    )?;
    Ok(fields)
}

/// The pairs of the signed form that starts a tool at the URL (LTI 1.1.1, sections 3 and 4.2): the message type, the
/// version, the resource link, and of the user, the place of the grade and its service those that the terms have, in the
/// standard's order; then the parameters of the protocol and the signature, as `sign_form` has them. `moment` is in seconds
/// since 1970-01-01 00:00:00 UTC.
///
/// What the other end reads in it is said by `a_launch_form_says_its_launch`.
pub fn launch_form(
    alloc: Global,
    url: &Url,
    terms: &Terms,
    key: &str,
    secret: &str,
    moment: u64,
    nonce: &str,
) -> Result<Pairs, NoMemory>
    requires link { 1 ≤ length terms.now.link }
    requires signer { CanSign key.now moment nonce.now }
    ensures signed { IfOk result (IsSignedForm (parts_of url.now) (spec.launch_fields terms.now) key.now secret.now moment nonce.now) }
    ensures launch { IfOk result (λ form. IsLaunchCall form (spec.noted_launch terms.now)) }
{
    let fields = launch_fields(alloc, terms)?;
    let form = sign_form(alloc, url, &fields, key, secret, moment, nonce)?;
    Ok(form)
}
