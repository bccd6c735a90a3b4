//! The beat of an executor: one registration at each admin.
ghost use Rattle.std.specs.Prelude.{◌≡◌, IfOk};
ghost use Rattle.executor_calls.specs.Asks.{registry_text, without_slash, admin_path, BeatGave};

use api_messages::{RegistryMessage, write_registry};
use executor_node::ExecutorSettings;
use job_values::{NoMemory, Seq, Text};
use node_asks::ask_each;
use outside::Dialer;
use std::alloc::Global;

/// The body of a registration.
fn registry_body(alloc: Global, settings: &ExecutorSettings) -> Result<Seq<u8>, NoMemory>
    ensures { IfOk result (λ b. b ≡ registry_text settings.now.app settings.now.address) }
{
    let message = RegistryMessage {
        registry_group: Text::copied(alloc, "EXECUTOR")?,
        registry_key: settings.app.copy(alloc)?,
        registry_value: settings.address.copy(alloc)?,
    };
    write_registry(alloc, &message)
}

/// A text without the slash at its front.
fn behind_slash(text: &str) -> &str
    ensures { result.now ≡ without_slash text.now }
{
    match text.strip_prefix("/") {
        Some(rest) => rest,
        None => text,
    }
}

/// The path of a call of an admin, behind that of its address: the base without its first byte, and the name.
pub fn admin_path(alloc: Global, base: &Text, name: &str) -> Result<Text, NoMemory>
    ensures { IfOk result (λ t. t ≡ admin_path base.now name.now) }
{
    let rest = behind_slash(base.as_str());
    let mut path = String::from_str(alloc, rest).map_err(|_| NoMemory)?;
    path.push_str(name).map_err(|_| NoMemory)?;
    Ok(Text::of(path))
}

/// Registers at each admin, and tells how many answer with code 200.
pub fn beat_once<D: Dialer>(
    alloc: Global,
    settings: &ExecutorSettings,
    dialer: &mut D,
) -> Result<u64, NoMemory>
    ensures { BeatGave (D.dials dialer.old) (D.dials dialer.new) settings.now result }
{
    let body = registry_body(alloc, settings)?;
    let path = admin_path(alloc, &settings.base, "registry")?;
    ask_each(
        alloc,
        dialer,
        settings.admins.as_slice(),
        path.as_str(),
        &settings.token,
        body.as_slice(),
    )
}
