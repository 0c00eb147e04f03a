//! What a hash file on these values needs to know of them, as laws on definitions.

ghost use Rattle.std.specs.Prelude.{◌≡◌, ◌≤◌, ◌<◌, ◌^◌, ℕ, suc, true, false, Some, List};
ghost use Rattle.key_entries.specs.EntryLaws.{AreBytes};
ghost use Rattle.hash_ops.specs.Blocks.{IsBucket, IsDirectory, bucket, bucket_code, bucket_in, directory_code, directory_in};
ghost use Rattle.hash_ops.specs.Effects.{deep_enough, half, with_new};
ghost use Rattle.hash_ops.specs.Laws.{SplitsPairs, SplitsEntries};
ghost use Rattle.hash_ops.specs.declared.bucket.Bucket.{Bucket};
ghost use Rattle.hash_ops.specs.declared.directory.Directory.{Directory};

/// Each directory and each bucket has one code, from which it is read, and nothing else is read as one.
pub fn blocks_have_one_code()
    ensures directory_found { (d : Directory) → IsDirectory d → directory_in (directory_code d) ≡ Some d }
    ensures directory_only { (bytes : List ℕ) (d : Directory) → AreBytes bytes → directory_in bytes ≡ Some d → IsDirectory d × (bytes ≡ directory_code d) }
    ensures bucket_found { (b : Bucket) → IsBucket b → bucket_in (bucket_code b) ≡ Some b }
    ensures bucket_only { (bytes : List ℕ) (b : Bucket) → AreBytes bytes → bucket_in bytes ≡ Some b → IsBucket b × (bytes ≡ bucket_code b) }
{}

/// A split keeps all pairs, each in the half that its key's number tells, and both halves are buckets.
pub fn a_split_keeps_all_pairs()
    ensures pairs { (place : ℕ) (pairs : List (List ℕ × List ℕ)) → SplitsPairs place pairs }
    ensures low { (b : Bucket) → IsBucket b → b.depth < 6 → IsBucket (bucket (suc b.depth) (half false b.depth b.pairs.items)) }
    ensures high { (b : Bucket) → IsBucket b → b.depth < 6 → IsBucket (bucket (suc b.depth) (half true b.depth b.pairs.items)) }
{}

/// After a split the entries of the upper half name the new bucket, and all others what they named before.
pub fn a_split_renames_the_upper_half()
    ensures { (place old new : ℕ) (d : Directory) → IsDirectory d → place ≤ d.depth → place < 6 → new < 2 ^ 32
        → SplitsEntries place old new d (with_new place old new (deep_enough place d)) }
{}
