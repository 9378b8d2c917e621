// What a signed message asks of the machine.
ghost use Rattle.std.specs.Prelude.{◌≡◌, IfOk, IfErr};
ghost use Rattle.lti_asks.specs.Launches as spec;
ghost use Rattle.lti_asks.specs.Launches.{IsLaunchCall};
ghost use Rattle.lti_provider.specs.Calls.{IsFaultOf};

use crate::ProviderFault;
use lti_launch::{Launch, LaunchFault, LaunchField};
use lti_machine::Action;
use lti_outside::{NoMemory, Text};
use oauth_request::Signed;
use std::alloc::Global;

// The text of a parameter, which is empty where the launch has none.
fn text_of(alloc: Global, launch: &Launch, field: LaunchField) -> Result<Text, NoMemory>
    ensures { IfOk result (λ text. text ≡ spec.text_of launch.now field) }
{
    match launch.get(field) {
        Some(value) => Text::new(alloc, value),
        None => Ok(Text::empty(alloc)),
    }
}

// What a launch asks.
fn launch_action(alloc: Global, launch: &Launch) -> Result<Action, NoMemory>
    ensures { IfOk result (λ action. action ≡ spec.launch_action launch.now) }
{
    Ok(Action::Launch {
        link: text_of(alloc, launch, LaunchField::ResourceLinkId)?,
        user: text_of(alloc, launch, LaunchField::UserId)?,
        sourced_id: text_of(alloc, launch, LaunchField::LisResultSourcedid)?,
        service: text_of(alloc, launch, LaunchField::LisOutcomeServiceUrl)?,
    })
}

/// What a signed message asks of the machine: to note the launch that it is (LTI 1.1.1, section 3), with its resource link,
/// its user, and the place and the service of its grade, which are empty texts where the launch has none. A message that is
/// no launch is refused with its first fault.
pub fn launch_call(alloc: Global, signed: &Signed) -> Result<Action, ProviderFault>
    ensures call { IfOk result (IsLaunchCall signed.now.pairs) }
    ensures fault { IfErr result (IsFaultOf signed.now.pairs) }
{
    let launch = match Launch::read(alloc, &signed.pairs) {
        Ok(launch) => launch,
        Err(LaunchFault::NoMemory) => return Err(ProviderFault::NoMemory),
        Err(fault) => return Err(ProviderFault::Launch(fault)),
    };
    let action = launch_action(alloc, &launch)?;
    Ok(action)
}
