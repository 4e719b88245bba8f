//! A file of extents behind a pair.
ghost use Rattle.std.specs.Prelude.{◌≡◌, ◌≢◌, ◌↔◌, ◌+◌, ◌≤◌, ℕ, List, Ok, Err, IfOk, IfErr, OnOk, OnErr, IfSome};
ghost use Rattle.odb_device.specs.World.{file_of};
ghost use Rattle.odb_device.specs.Images.{EachImage};
ghost use Rattle.odb_device.specs.Calls.{HasCause, Keeps, FileCountRose};
ghost use Rattle.odb_device.specs.Moments.{WritesWithin};
ghost use Rattle.odb_extent.specs.Opened.{content_end, opened};
ghost use Rattle.odb_extent.specs.Standing.{IsFileOf, Stands, limit_of, fields_of, HoldsAt, HoldsKept, HoldsKeptOr, RunsExtents, IsNew, Takes, LeavesTried, new_file, IsSettled};
ghost use Rattle.odb_extent.specs.Answers.{IsAnswer, IsGrowRefusal};

use crate::ExtentError;
use crate::limits::{fields_in, limit_in, value_with};
use crate::zeroing::zero_extent;
use odb_device::Store;
use odb_pair::Pair;
use std::marker::Model;

/// A file whose content is so many extents of 1 MiB, from byte 1,024 on, behind a pair that keeps
/// their number, the limit, and 36 bytes of the file's owner.
///
/// The content is the owner's: no call here writes inside the limit, and `stands_content` of
/// `specs/Laws.antt` says that the owner's writes there leave what this type knows of its file. An
/// extent that is added is zeros on the disk before the pair is written, so no crash leaves a limit
/// that counts anything else.
///
/// A file that was opened may be shorter than its limit says; who needs its content looks at its
/// length. Contracts see the value as an `ExtentState`, and say by `Stands` what each image of the
/// file is.
///
/// After a fault in `put_fields` or `grow` a crash may leave what is kept, or what that call, or a
/// broken one before it, tried to put.
#[derive(Debug, Drop)]
pub struct Extents {
    pair: Pair,
    /// How many extents the file may have, from 1 to 4,096.
    most: u32,
}

impl Model for Extents {
    ghost use Rattle.odb_extent.specs.Standing.{ExtentState, IsSound};

    ghost Value = { ExtentState };

    ghost view = { λ e. record { pair = e.pair; most = e.most } };

    ghost invariant = { λ e. IsSound (view e) };
}

impl Extents {
    /// Makes a file of one extent, all zeros, with these fields. `most` is how many extents it may
    /// ever have, from 1 to 4,096.
    ///
    /// It zeroes the extent by sixteen writes and one sync, and formats the pair by three writes
    /// and three syncs. A crash before it ends, and `Fault`, the only refusal, may leave any bytes
    /// there; what lies behind the extent stays.
    pub fn format<S: Store>(
        store: &mut S,
        file: u32,
        most: u32,
        fields: &[u8; 36],
    ) -> Result<Extents, ExtentError>
        requires { (1 ≤ most) × (most ≤ 4096) }
        ensures run { WritesWithin file 0 (content_end 1) (S.world store.old) (S.world store.new) }
        ensures stands { IfOk result (λ e. Stands e (file_of file (S.world store.new))) }
        ensures holds { OnOk result
            (EachImage (IsNew most fields.now) (file_of file (S.world store.new))) }
        ensures made { IfOk result (λ e. e ≡ new_file file most fields.now) }
        ensures limit { IfOk result (λ e. (limit_of e ≡ 1) × (fields_of e ≡ fields.now)) }
        ensures refusal { IfErr result (λ e. e ≡ ExtentError.Fault) }
        ensures cause { HasCause file (S.world store.old) (S.world store.new) result }
    {
        zero_extent(store, file, 0)?;
        let pair = Pair::format(store, file, &value_with(1, fields))?;
        Ok(Extents { pair, most })
    }

    /// The file of at most `most` extents, from 1 to 4,096, that its bytes are, once they are on
    /// the disk: one sync and one read of 1,024 bytes, onto the stack.
    ///
    /// It refuses `NoOpenPlace` and `Malformed` exactly by the pair and its limit, as `opened`
    /// says, and `Fault` where the sync or the read failed. It writes nothing, and doesn't look at
    /// the content, nor at how much of it is there. The sync comes first, so what is read is all
    /// that a crash leaves.
    pub fn open<S: Store>(store: &mut S, file: u32, most: u32) -> Result<Extents, ExtentError>
        requires { (1 ≤ most) × (most ≤ 4096) }
        ensures run { WritesWithin file 0 0 (S.world store.old) (S.world store.new) }
        ensures kept { result ≢ Err ExtentError.Fault
            → Keeps file (S.world store.old) (S.world store.new) }
        ensures answer { IfSome (file_of file (S.world store.old))
            (λ f. IsAnswer result (opened most f.bytes)) }
        ensures stands { IfOk result (λ e. Stands e (file_of file (S.world store.new))) }
        ensures holds { IfOk result (λ e. EachImage (HoldsAt e (limit_of e) (fields_of e))
            (file_of file (S.world store.new))) }
        ensures found { IfOk result (λ e. (e.pair.file ≡ file) × (e.most ≡ most)) }
        ensures settled { IfOk result IsSettled }
        ensures refusal { result ≢ Err ExtentError.Limit }
        ensures fault { result ≡ Err ExtentError.Fault
            → FileCountRose file (S.world store.old) (S.world store.new) }
    {
        let pair = Pair::open(store, file)?;
        let limit = limit_in(&pair.value());
        if limit == 0 || limit > most {
            return Err(ExtentError::Malformed);
        }
        Ok(Extents { pair, most })
    }

    /// Adds an extent of zeros behind the content, and raises the limit by 1.
    ///
    /// It settles the pair, so that no crash leaves a limit that counts the extent while it is
    /// zeroed; writes the zeros by sixteen writes and one sync; and puts the limit, by at most
    /// three writes and three syncs, as many as settling takes where the pair is unsettled.
    ///
    /// At each moment of it a crash leaves the limit kept or the new one with the same fields, or
    /// what a broken call tried before; the content inside the limit kept stays, and what a greater
    /// limit adds is zeros. After Ok a crash leaves the new limit alone.
    ///
    /// `Limit` comes exactly where the limit is `most`, without a call of the store. After `Fault`
    /// the limit and the fields kept are as before, and the call may be made again.
    pub fn grow<S: Store>(&mut self, store: &mut S) -> Result<(), ExtentError>
        requires { Stands self.old (file_of self.old.pair.file (S.world store.old)) }
        ensures run { RunsExtents self.old
            (HoldsKeptOr self.old (limit_of self.old + 1) (fields_of self.old))
            (S.world store.old) (S.world store.new) }
        ensures stands { Stands self.new (file_of self.old.pair.file (S.world store.new)) }
        ensures holds { OnOk result
            (EachImage (HoldsAt self.old (limit_of self.old + 1) (fields_of self.old))
            (file_of self.old.pair.file (S.world store.new))) }
        ensures grown { OnOk result
            (Takes (limit_of self.old + 1) (fields_of self.old) self.old self.new) }
        ensures tried { OnErr result
            (LeavesTried (limit_of self.old + 1) (fields_of self.old) self.old self.new) }
        ensures full { (result ≡ Err ExtentError.Limit) ↔ (limit_of self.old ≡ self.old.most) }
        ensures quiet { limit_of self.old ≡ self.old.most
            → (self.new ≡ self.old) × (store.new ≡ store.old) }
        ensures refusal { IsGrowRefusal result }
        ensures fault { result ≡ Err ExtentError.Fault
            → FileCountRose self.old.pair.file (S.world store.old) (S.world store.new) }
    {
        let limit = self.limit();
        let fields = self.fields();
        if limit == self.most {
            return Err(ExtentError::Limit);
        }
        self.pair.settle(store)?;
        zero_extent(store, self.pair.file(), limit)?;
        self.pair.put(store, &value_with(limit + 1, &fields))?;
        Ok(())
    }

    /// Puts these fields beside the limit kept, by one put of the pair: at most three writes and
    /// three syncs.
    ///
    /// At each moment of it a crash leaves the fields kept or these, or what a broken call tried
    /// before, and no byte of the content changes. After Ok a crash leaves these alone. After
    /// `Fault`, the only refusal, the limit and the fields kept are as before, and the call may be
    /// made again.
    pub fn put_fields<S: Store>(
        &mut self,
        store: &mut S,
        fields: &[u8; 36],
    ) -> Result<(), ExtentError>
        requires { Stands self.old (file_of self.old.pair.file (S.world store.old)) }
        ensures run { RunsExtents self.old (HoldsKeptOr self.old (limit_of self.old) fields.now)
            (S.world store.old) (S.world store.new) }
        ensures beside { WritesWithin self.old.pair.file 0 1024
            (S.world store.old) (S.world store.new) }
        ensures stands { Stands self.new (file_of self.old.pair.file (S.world store.new)) }
        ensures holds { OnOk result (EachImage (HoldsAt self.old (limit_of self.old) fields.now)
            (file_of self.old.pair.file (S.world store.new))) }
        ensures put { OnOk result (Takes (limit_of self.old) fields.now self.old self.new) }
        ensures tried { OnErr result
            (LeavesTried (limit_of self.old) fields.now self.old self.new) }
        ensures refusal { IfErr result (λ e. e ≡ ExtentError.Fault) }
        ensures cause { HasCause self.old.pair.file (S.world store.old) (S.world store.new) result }
    {
        let value = value_with(self.limit(), fields);
        self.pair.put(store, &value)?;
        Ok(())
    }

    /// The limit kept: how many extents the content has, from 1 to `most`.
    pub fn limit(&self) -> u32
        ensures value { result ≡ limit_of self.now }
        ensures range { (1 ≤ result) × (result ≤ self.now.most) × (self.now.most ≤ 4096) }
        ensures holds { (bytes : List ℕ) → IsFileOf self.now bytes → HoldsKept self.now bytes }
    {
        limit_in(&self.pair.value())
    }

    /// The fields kept: those put last with Ok, or those of the file that was opened or formatted.
    pub fn fields(&self) -> [u8; 36]
        ensures { result ≡ fields_of self.now }
    {
        fields_in(&self.pair.value())
    }
}
