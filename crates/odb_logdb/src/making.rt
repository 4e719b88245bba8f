//! A new log.
ghost use Rattle.std.specs.Prelude.{◌≡◌, ◌^◌, ◌≤◌, [], OnOk, IfOk, IfErr};
ghost use Rattle.odb_device.specs.World.{file_of};
ghost use Rattle.odb_device.specs.Images.{EachImage};
ghost use Rattle.odb_device.specs.Calls.{HasCause};
ghost use Rattle.odb_device.specs.Moments.{WritesWithin};
ghost use Rattle.odb_extent.specs.Opened.{content_end};
ghost use Rattle.odb_extent.specs.Standing.{IsNew, Stands as ExtentsStand, limit_of, fields_of, new_file};
ghost use Rattle.odb_logdb.specs.Fields.{fields_image};

use crate::fields::LIVE;
use crate::logdb::{CONTENT, FILE, MOST, content_end};
use crate::{ListState, LogFields, Logdb, LogdbError};
use odb_device::Store;
use odb_extent::Extents;
use odb_reclog::RecLog;

impl Logdb {
    ghost use Rattle.odb_logdb.specs.Opened.{Holds};
    ghost use Rattle.odb_logdb.specs.Worlds.{IsNewLog};

    /// Makes file 1 a log without entries, of one extent, whose first entry will have this number.
    ///
    /// It costs what `Extents::format` costs, 19 writes and four syncs. A crash before it ends, and
    /// `Fault`, the only refusal, may leave any bytes in the extent and the pair.
    pub fn format<S: Store>(store: &mut S, first: u64) -> Result<Logdb, LogdbError>
        requires { (1 ≤ first) × (first ≤ 2 ^ 63) }
        ensures run { WritesWithin 1 0 (content_end 1) (S.world store.old) (S.world store.new) }
        ensures holds { OnOk result (EachImage (Holds first []) (file_of 1 (S.world store.new))) }
        ensures made { IfOk result (λ l. IsNewLog first l (S.world store.new)) }
        ensures refusal { IfErr result (λ e. e ≡ LogdbError.Fault) }
        ensures cause { HasCause 1 (S.world store.old) (S.world store.new) result }
    {
        let fields = LogFields::new(LIVE, first);
        let extents = new_extents(store, &fields)?;
        let log = RecLog::begin(FILE, CONTENT, content_end(1), first);
        Ok(Logdb {
            extents,
            fields,
            log,
            state: ListState::Known,
        })
    }
}

/// A file of one extent of zeros with these fields.
fn new_extents<S: Store>(store: &mut S, fields: &LogFields) -> Result<Extents, LogdbError>
    ensures run { WritesWithin 1 0 (content_end 1) (S.world store.old) (S.world store.new) }
    ensures stands { IfOk result (λ e. ExtentsStand e (file_of 1 (S.world store.new))) }
    ensures holds { OnOk result
        (EachImage (IsNew 1024 (fields_image fields.now)) (file_of 1 (S.world store.new))) }
    ensures made { IfOk result (λ e. e ≡ new_file 1 1024 (fields_image fields.now)) }
    ensures limit { IfOk result
        (λ e. (limit_of e ≡ 1) × (fields_of e ≡ fields_image fields.now)) }
    ensures refusal { IfErr result (λ e. e ≡ LogdbError.Fault) }
    ensures cause { HasCause 1 (S.world store.old) (S.world store.new) result }
{
    match Extents::format(store, FILE, MOST, &fields.image()) {
        Ok(extents) => Ok(extents),
        Err(_) => Err(LogdbError::Fault),
    }
}
