//! The zones of jobs.
ghost use Rattle.std.specs.Prelude.{◌≡◌};
ghost use Rattle.cluster_history.specs.Zones.{zone_in, zone_of};

use cluster_history::Settings;
use job_values::{JobSpec, ZoneFault};
use zone_texts::Zone;

/// What the zone of a spec says, or its first fault. An empty one says the offset of the settings.
pub fn zone_said(settings: Settings, spec: &JobSpec) -> Result<Zone, ZoneFault>
    ensures { zone_in settings spec.now ≡ result }
{
    Zone::parse(spec.zone.get(), settings.offset)
}

/// The zone that the times of a job are told by. The text of a row always says one; any other stands
/// for the offset of the settings.
pub fn zone_of(settings: Settings, spec: &JobSpec) -> Zone
    ensures { result ≡ zone_of settings spec.now }
{
    let offset = settings.offset;
    match Zone::parse(spec.zone.get(), offset) {
        Ok(zone) => zone,
        Err(_) => Zone {
            standard: offset,
            rules: None,
        },
    }
}
