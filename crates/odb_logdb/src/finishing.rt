//! Making a Dirty log Live.
ghost use Rattle.std.specs.Prelude.{◌≡◌, ◌-◌, ◌^◌, ◌<◌, ◌≤◌, OnOk, OnErr, IfErr};
ghost use Rattle.odb_device.specs.World.{file_of};
ghost use Rattle.odb_device.specs.Images.{EachImage};
ghost use Rattle.odb_device.specs.Calls.{HasCause, FileCountRose};
ghost use Rattle.odb_reclog.specs.Told.{TearsOnly};
ghost use Rattle.odb_extent.specs.Opened.{content_end};
ghost use Rattle.odb_extent.specs.Standing.{limit_of, IsSettled};
ghost use Rattle.odb_logdb.specs.declared.fields.LogFields.{LogFields};
ghost use Rattle.odb_logdb.specs.Fields.{LIVE, log_fields};
ghost use Rattle.odb_logdb.specs.Finishing.{IsDirtyIn, IsDirtyOf, HoldsNoneThrough, HasZeros, IsLiveIn};

use crate::fields::LIVE;
use crate::logdb::{CONTENT, FILE, content_end};
use crate::{ListState, LogFields, Logdb, LogdbError};
use odb_device::{Failed, Store, write_zeros};
use odb_extent::{ExtentError, Extents};
use odb_reclog::RecLog;

/// How many bytes are zeroed by one write.
const PIECE: u64 = 65_536;

impl Logdb {
    ghost use Rattle.odb_logdb.specs.declared.state.ListState.TheVariants.{Dirty};
    ghost use Rattle.odb_logdb.specs.Standing.{Stands};
    ghost use Rattle.odb_logdb.specs.Worlds.{OpensAsBefore};
    ghost use Rattle.odb_logdb.specs.Appending.{IsReady};

    /// Makes the content of a Dirty log zeros, and then the log Live, which begins again at the
    /// content's first byte.
    pub(crate) fn finish<S: Store>(&mut self, store: &mut S) -> Result<(), LogdbError>
        requires dirty { self.old.state ≡ Dirty }
        requires stands { Stands self.old (file_of 1 (S.world store.old)) }
        ensures run { OpensAsBefore (S.world store.old) (S.world store.new) }
        ensures stands { Stands self.new (file_of 1 (S.world store.new)) }
        ensures ready { IsReady self.old self.new result
            (file_of 1 (S.world store.old)) (file_of 1 (S.world store.new)) }
        ensures refusal { IfErr result (λ e. e ≡ LogdbError.Fault) }
        ensures cause { OnErr result (FileCountRose 1 (S.world store.old) (S.world store.new)) }
    {
        let live = LogFields::new(LIVE, self.fields.first);
        if make_live(&mut self.extents, store, &self.fields, &live).is_err() {
            return Err(LogdbError::Fault);
        }
        let end = content_end(self.extents.limit());
        self.fields = live;
        self.log = RecLog::begin(FILE, CONTENT, end, live.first);
        self.state = ListState::Known;
        Ok(())
    }
}

/// Makes the content of a Dirty log zeros, and puts the fields of a Live one.
///
/// The Dirty fields are put once more first: no crash leaves others then, while the content may be
/// any bytes.
fn make_live<S: Store>(
    extents: &mut Extents,
    store: &mut S,
    dirty: &LogFields,
    live: &LogFields,
) -> Result<(), ExtentError>
    requires dirty { IsDirtyIn extents.old dirty.now (S.world store.old) }
    requires live { live.now ≡ log_fields LIVE dirty.now.first }
    ensures run { HoldsNoneThrough dirty.now.first (S.world store.old) (S.world store.new) }
    ensures left { OnErr result (IsDirtyIn extents.new dirty.now (S.world store.new)) }
    ensures live { OnOk result (IsLiveIn extents.new live.now (S.world store.new)) }
    ensures cause { HasCause 1 (S.world store.old) (S.world store.new) result }
{
    put_dirty(extents, store, dirty)?;
    let end = content_end(extents.limit());
    if zero_range(store, CONTENT, end).is_err() {
        return Err(ExtentError::Fault);
    }
    put_live(extents, store, live)
}

/// Puts the fields of a Dirty log once more, so that no crash leaves others.
fn put_dirty<S: Store>(
    extents: &mut Extents,
    store: &mut S,
    dirty: &LogFields,
) -> Result<(), ExtentError>
    requires dirty { IsDirtyIn extents.old dirty.now (S.world store.old) }
    ensures run { HoldsNoneThrough dirty.now.first (S.world store.old) (S.world store.new) }
    ensures dirty { IsDirtyIn extents.new dirty.now (S.world store.new) }
    ensures settled { OnOk result (IsSettled extents.new) }
    ensures cause { HasCause 1 (S.world store.old) (S.world store.new) result }
{
    extents.put_fields(store, &dirty.image())
}

/// Puts the fields of a Live log over zeros.
fn put_live<S: Store>(
    extents: &mut Extents,
    store: &mut S,
    live: &LogFields,
) -> Result<(), ExtentError>
    requires dirty { IsDirtyOf extents.old live.now (S.world store.old) }
    requires settled { IsSettled extents.old }
    requires zeros { EachImage (HasZeros 1024 (content_end (limit_of extents.old)))
        (file_of 1 (S.world store.old)) }
    ensures run { HoldsNoneThrough live.now.first (S.world store.old) (S.world store.new) }
    ensures left { (f : LogFields) → live.now ≡ log_fields LIVE f.first
        → IsDirtyIn extents.old f (S.world store.old)
        → OnErr result (IsDirtyIn extents.new f (S.world store.new)) }
    ensures live { OnOk result (IsLiveIn extents.new live.now (S.world store.new)) }
    ensures cause { HasCause 1 (S.world store.old) (S.world store.new) result }
{
    extents.put_fields(store, &live.image())
}

/// Makes the bytes of file 1 from `start` to before `end` zeros on the disk, in pieces of 65,536
/// bytes, with one sync behind them.
fn zero_range<S: Store>(store: &mut S, start: u64, end: u64) -> Result<(), Failed>
    requires { (start < end) × (end ≤ 2 ^ 40) }
    ensures run { TearsOnly 1 start (end - start) (S.world store.old) (S.world store.new) }
    ensures zero { OnOk result (EachImage (HasZeros start end) (file_of 1 (S.world store.new))) }
    ensures cause { HasCause 1 (S.world store.old) (S.world store.new) result }
{
    let mut at = start;
    while at < end {
        let size = (end - at).min(PIECE);
        write_zeros(store, FILE, at, size as usize)?;
        at += size;
    }
    store.sync(FILE)
}
