//! What a plan finds in the tables, or makes of what it finds.

ghost use Rattle.std.specs.Prelude.{◌≡◌, Err, Ok};
ghost use Rattle.std.specs.Option.{option_map_or};
ghost use Rattle.money.specs.declared.fault.Fault.TheVariants.{Disk};

use money::Fault;

/// What has to be there. Where it isn't, the tables are not as they were left, which is a fault of the disk.
pub(crate) fn required<T>(found: Option<T>) -> Result<T, Fault>
    ensures { result ≡ option_map_or Ok found (Err Disk) }
{
    match found {
        Some(it) => Ok(it),
        None => Err(Fault::Disk),
    }
}
