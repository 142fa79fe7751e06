//! A folder in memory, for tests: it reports its files, and can be made to fail.
ghost use Rattle.std.specs.Prelude.{◌≡◌, ◌≢◌, ◌⊎◌, ◌≤◌, ◌-◌, ◌∷◌, ◌++◌, ℕ, min, List, [], None};
ghost use Rattle.std.specs.Prelude.{Some, Err, map, length, true, vec_len};
ghost use Rattle.std.specs.Prelude.{IfErr, IfOk, IfSome, OnErr, OnOk};
ghost use Rattle.tangle_streams.specs.Streams.{Takes, counted_write, one_more_failure};
ghost use Rattle.std.specs.Option.{option_copied};
ghost use Rattle.tangle_folders.specs.Folder.{AddsAsked, IsFileAnswer, after_close, after_read};
ghost use Rattle.tangle_folders.specs.Folder.{after_refusal, file_bytes, file_limit, with_failed};
ghost use Rattle.tangle_folders.specs.Folder.{with_last};
ghost use Rattle.tangle_memory_folder.specs.MemoryFolder.{after_call, bytes_of_each, created_file};
ghost use Rattle.tangle_memory_folder.specs.MemoryFolder.{fails_now, stored_files};
ghost use Rattle.tangle_folders.specs.declared.folder.FolderFault.TheVariants.{Failed};

use indexmap::IndexMap;
use std::alloc::Global;
use tangle_folders::{FILE_LIMIT, Folder, FolderFault};
use tangle_streams::{NoMemory, Sink};

/// A file that was created.
#[derive(Debug, Drop)]
pub struct CreatedFile {
    pub name: Vec<u8>,
    pub bytes: Vec<u8>,
}

/// A writer in memory, which fails when it has taken as many bytes as its capacity.
#[derive(Debug, Drop)]
pub struct MemorySink {
    bytes: Vec<u8>,
    remaining: usize,
    failures: u64,
}

impl MemorySink {
    /// An empty writer that takes at most `capacity` bytes, with no failure counted.
    pub fn new(alloc: Global, capacity: usize) -> Self
        ensures bytes { result.bytes.items ≡ [] }
        ensures remaining { result.remaining ≡ capacity }
        ensures failures { result.failures ≡ 0 }
    {
        MemorySink {
            bytes: Vec::new(alloc),
            remaining: capacity,
            failures: 0,
        }
    }

    /// The bytes that the writer has taken.
    pub fn bytes(&self) -> &[u8]
        ensures { result.now ≡ self.now.bytes.items }
    {
        self.bytes.as_slice()
    }
}

impl Sink for MemorySink {
    ghost stream = { λ sink. record { taken = Some sink.bytes.items; failures = sink.failures } };

    // The clauses of the trait, and that the writer takes all bytes for which it has capacity.
    fn take(&mut self, bytes: &[u8]) -> Option<usize>
        ensures within { IfSome result (λ n. n ≤ length bytes.now) }
        ensures reported { Takes (Some self.old.bytes.items) (Some self.new.bytes.items) bytes.now
            result }
        ensures failed { self.new.failures ≡ counted_write self.old.failures bytes.now result }
        ensures most { IfSome result (λ n. n ≡ min (length bytes.now) self.old.remaining) }
        ensures left { IfSome result (λ n. self.new.remaining ≡ self.old.remaining - n) }
    {
        let count = bytes.len().min(self.remaining);
        if self.bytes.extend_from_slice(&bytes[..count]).is_err() {
            self.failures = self.failures.saturating_add(1);
            return None;
        }
        self.remaining -= count;
        if count == 0 && !bytes.is_empty() {
            self.failures = self.failures.saturating_add(1);
        }
        Some(count)
    }

    fn failures(&self) -> u64 {
        self.failures
    }
}

/// A folder in memory, whose writers all have the same capacity. It records the names passed to
/// `read_file`, and can be made to fail at one later call.
#[derive(Drop)]
pub struct MemoryFolder {
    files: IndexMap<Vec<u8>, Vec<u8>>,
    created: Vec<CreatedFile>,
    asked: Vec<Vec<u8>>,
    failed: Vec<Vec<u8>>,
    capacity: usize,
    calls_to_failure: Option<u64>,
    failures: u64,
}

impl MemoryFolder {
    /// A folder without files. Each writer that `create` returns takes at most `capacity` bytes.
    pub fn new(alloc: Global, capacity: usize) -> Self
        ensures files { stored_files result.files ≡ [] }
        ensures created { result.created.items ≡ [] }
        ensures asked { result.asked.items ≡ [] }
        ensures failed { result.failed.items ≡ [] }
        ensures capacity { result.capacity ≡ capacity }
        ensures sound { result.calls_to_failure ≡ None }
        ensures failures { result.failures ≡ 0 }
        ensures reports { ⟦<MemoryFolder as Folder>⟧.state result ≡ record {
          files = Some [];
          created = Some [];
          asked = Some [];
          failed = Some [];
          failures = 0;
        } }
    {
        MemoryFolder {
            files: IndexMap::new(alloc),
            created: Vec::new(alloc),
            asked: Vec::new(alloc),
            failed: Vec::new(alloc),
            capacity,
            calls_to_failure: None,
            failures: 0,
        }
    }

    /// Adds a file with these bytes, or replaces the file of the same name. Other files are
    /// unchanged.
    ///
    /// # Errors
    ///
    /// `NoMemory` if an allocation fails; the files are then unchanged.
    pub fn put(&mut self, alloc: Global, name: &[u8], bytes: &[u8]) -> Result<(), NoMemory>
        ensures ok { OnOk result (file_bytes (stored_files self.new.files) name.now
            ≡ Some bytes.now) }
        ensures others { OnOk result ((other : List ℕ) → other ≢ name.now
            → file_bytes (stored_files self.new.files) other
            ≡ file_bytes (stored_files self.old.files) other) }
        ensures err { OnErr result (stored_files self.new.files ≡ stored_files self.old.files) }
        ensures kept { self.new ≡ record self.old { files = self.new.files } }
    {
        let name = Vec::from_slice(alloc, name)?;
        let bytes = Vec::from_slice(alloc, bytes)?;
        match self.files.insert(name, bytes) {
            Ok(_) => Ok(()),
            Err(_) => Err(NoMemory),
        }
    }

    /// Makes one call of `read_file`, `create` or `close` fail: the one after the next `calls` of
    /// them. It makes no later call fail; another `fail_after` replaces this one. A `close` that
    /// fails keeps the bytes that its writer took.
    pub fn fail_after(&mut self, calls: u64)
        ensures { self.new ≡ record self.old { calls_to_failure = Some calls } }
    {
        self.calls_to_failure = Some(calls);
    }

    /// The files that were created, in order.
    pub fn created(&self) -> &[CreatedFile]
        ensures { result.now ≡ self.now.created.items }
    {
        self.created.as_slice()
    }

    /// The names passed to `read_file`, in order.
    pub fn asked(&self) -> &[Vec<u8>]
        ensures { result.now ≡ self.now.asked.items }
    {
        self.asked.as_slice()
    }

    // Whether this call has to fail. Each call of `read_file`, `create` and `close` asks once.
    fn fails_now(&mut self) -> bool
        ensures fails { result ≡ fails_now self.old.calls_to_failure }
        ensures after { self.new ≡ record self.old
            { calls_to_failure = after_call self.old.calls_to_failure } }
    {
        let left = self.calls_to_failure;
        self.calls_to_failure = match left {
            None => None,
            Some(0) => None,
            Some(n) => Some(n - 1),
        };
        left == Some(0)
    }

    fn record_name(&mut self, alloc: Global, name: &[u8]) -> Result<(), NoMemory>
        ensures ok { OnOk result (bytes_of_each self.new.asked.items
            ≡ bytes_of_each self.old.asked.items ++ name.now ∷ []) }
        ensures err { OnErr result (self.new.asked.items ≡ self.old.asked.items) }
        ensures others { self.new ≡ record self.old { asked = self.new.asked } }
    {
        let name = Vec::from_slice(alloc, name)?;
        self.asked.push(name)?;
        Ok(())
    }

    fn fail_at(&mut self, alloc: Global, name: &[u8]) -> Result<(), NoMemory>
        ensures ok { OnOk result (bytes_of_each self.new.failed.items
            ≡ bytes_of_each self.old.failed.items ++ name.now ∷ []) }
        ensures counted { OnOk result (self.new.failures ≡ one_more_failure self.old.failures) }
        ensures err { OnErr result (self.new.failed.items ≡ self.old.failed.items) }
        ensures uncounted { OnErr result (self.new.failures ≡ self.old.failures) }
        ensures others { self.new ≡ record self.old
            { failed = self.new.failed; failures = self.new.failures } }
    {
        let name = Vec::from_slice(alloc, name)?;
        self.failed.push(name)?;
        self.failures = self.failures.saturating_add(1);
        Ok(())
    }

    fn bytes(&self, name: &[u8]) -> Option<&[u8]>
        ensures { option_copied result ≡ file_bytes (stored_files self.now.files) name.now }
    {
        match self.files.get(name) {
            Some(bytes) => Some(bytes.as_slice()),
            None => None,
        }
    }
}

fn set_last(files: &mut Vec<CreatedFile>, bytes: Vec<u8>)
    ensures { map created_file files.new.items
        ≡ with_last (map created_file files.old.items) bytes.items }
{
    let count = files.len();
    if count > 0 {
        files[count - 1].bytes = bytes;
    }
}

impl Folder for MemoryFolder {
    type Out = MemorySink;

    ghost state = { λ folder. record {
      files = Some (stored_files folder.files);
      created = Some (map created_file folder.created.items);
      asked = Some (bytes_of_each folder.asked.items);
      failed = Some (bytes_of_each folder.failed.items);
      failures = folder.failures;
    } };

    // The clauses of the trait, and which call fails.
    fn read_file(&mut self, alloc: Global, name: &[u8]) -> Result<Vec<u8>, FolderFault>
        ensures answer { IsFileAnswer (Some (stored_files self.old.files)) name.now result }
        ensures small { IfOk result (λ bytes. vec_len bytes ≤ file_limit) }
        ensures counted { self.new.failures ≡ after_read result self.old.failures }
        ensures asks { AddsAsked (Some (bytes_of_each self.old.asked.items))
            (Some (bytes_of_each self.new.asked.items)) name.now result }
        ensures fails { Some (bytes_of_each self.new.failed.items)
            ≡ with_failed (Some (bytes_of_each self.old.failed.items)) name.now result }
        ensures failing { fails_now self.old.calls_to_failure ≡ true → (result ≡ Err Failed)
            ⊎ (result ≡ Err FolderFault.NoMemory) }
        ensures only_failing { result ≡ Err Failed → fails_now self.old.calls_to_failure ≡ true }
        ensures kept { self.new ≡ record self.old {
          asked = self.new.asked;
          failed = self.new.failed;
          calls_to_failure = after_call self.old.calls_to_failure;
          failures = self.new.failures;
        } }
    {
        let fails = self.fails_now();
        if self.record_name(alloc, name).is_err() {
            return Err(FolderFault::NoMemory);
        }
        if fails {
            return match self.fail_at(alloc, name) {
                Ok(()) => Err(FolderFault::Failed),
                Err(_) => Err(FolderFault::NoMemory),
            };
        }
        match self.bytes(name) {
            None => Err(FolderFault::Missing),
            Some(bytes) => {
                if bytes.len() > FILE_LIMIT {
                    return Err(FolderFault::TooBig);
                }
                match Vec::from_slice(alloc, bytes) {
                    Ok(bytes) => Ok(bytes),
                    Err(_) => Err(FolderFault::NoMemory),
                }
            }
        }
    }

    // The clauses of the trait, the capacity of the writer, and which call fails.
    fn create(&mut self, alloc: Global, name: &[u8]) -> Result<MemorySink, FolderFault>
        ensures added { OnOk result (map created_file self.new.created.items
            ≡ map created_file self.old.created.items ++ (name.now, []) ∷ []) }
        ensures empty { IfOk result (λ out. out.bytes.items ≡ []) }
        ensures unfailed { IfOk result (λ out. out.failures ≡ 0) }
        ensures capacity { IfOk result (λ out. out.remaining ≡ self.old.capacity) }
        ensures refused { OnErr result
            (map created_file self.new.created.items ≡ map created_file self.old.created.items) }
        ensures counted { self.new.failures ≡ after_refusal result self.old.failures }
        ensures failing { fails_now self.old.calls_to_failure ≡ true → result ≡ Err Failed }
        ensures only_failing { IfErr result (λ fault. (fault ≡ FolderFault.NoMemory)
            ⊎ ((fault ≡ Failed) × (fails_now self.old.calls_to_failure ≡ true))) }
        ensures kept { self.new ≡ record self.old {
          created = self.new.created;
          calls_to_failure = after_call self.old.calls_to_failure;
          failures = self.new.failures;
        } }
    {
        if self.fails_now() {
            self.failures = self.failures.saturating_add(1);
            return Err(FolderFault::Failed);
        }
        let Ok(name) = Vec::from_slice(alloc, name) else {
            return Err(FolderFault::NoMemory);
        };
        let file = CreatedFile {
            name,
            bytes: Vec::new(alloc),
        };
        if self.created.push(file).is_err() {
            return Err(FolderFault::NoMemory);
        }
        Ok(MemorySink::new(alloc, self.capacity))
    }

    // The clauses of the trait, and which call fails.
    fn close(&mut self, out: MemorySink) -> Result<(), FolderFault>
        ensures whole { OnOk result (map created_file self.new.created.items
            ≡ with_last (map created_file self.old.created.items) out.bytes.items) }
        ensures prefix { OnErr result (map created_file self.new.created.items
            ≡ with_last (map created_file self.old.created.items) out.bytes.items) }
        ensures needs_no_memory { IfErr result (λ fault. fault ≢ FolderFault.NoMemory) }
        ensures counted { self.new.failures ≡ after_close result out.failures self.old.failures }
        ensures failing { fails_now self.old.calls_to_failure ≡ true → result ≡ Err Failed }
        ensures only_failing { OnErr result (fails_now self.old.calls_to_failure ≡ true) }
        ensures kept { self.new ≡ record self.old {
          created = self.new.created;
          calls_to_failure = after_call self.old.calls_to_failure;
          failures = self.new.failures;
        } }
    {
        let MemorySink {
            bytes,
            remaining: _,
            failures,
        } = out;
        set_last(&mut self.created, bytes);
        if self.fails_now() {
            self.failures = self.failures.saturating_add(1);
            return Err(FolderFault::Failed);
        }
        if failures != 0 {
            self.failures = self.failures.saturating_add(1);
        }
        Ok(())
    }
}
