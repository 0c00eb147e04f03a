// Calls on the store of a session; where a transaction is open, within it.
ghost use Rattle.std.specs.Prelude.{option_map};
ghost use Rattle.app_steps.specs.Steps.{program_step, step_of};
ghost use Rattle.embed_c.specs.Calls.{DoesRun, StagesRun};
ghost use Rattle.embed_c.specs.PageMaps.{bytes_of, map_back, map_count, map_delete, map_get, map_next, map_prev, map_range, map_set, pairs_of, seen_as};
ghost use Rattle.embed_c.specs.Ranges.{Does, Stages, hash_delete, hash_get, hash_put, tree_delete, tree_get, tree_insert, tree_range};
ghost use Rattle.embed_c.specs.Within.{IsMade};

use crate::session::Session;
use app_steps::{App, ProgApp};
use hash_client::HashErr;
use hash_file::HashFile;
use key_entries::Short;
use logical_btree::Tree;
use map_client::MapErr;
use oper_core::ByteList;
use page_map::Map;
use page_ops::Text;
use store_engine::ExecErr;
use tree_client::TreeErr;

impl Session {
    // Gives a key of a tree this value.
    pub(crate) fn insert_in_tree(
        &mut self,
        tree: &Tree,
        key: &Short,
        value: &Short,
    ) -> Result<(), TreeErr>
        ensures { IsMade (Does (tree_insert tree.now.lo tree.now.hi key.now value.now)) (Stages (tree_insert tree.now.lo tree.now.hi key.now value.now)) self.old self.new result }
    {
        match &mut self.staging {
            None => self.store.tree_insert(tree, key, value),
            Some(transaction) => self.store.tree_insert_within(transaction, tree, key, value),
        }
    }

    // Deletes a key of a tree, and its value.
    pub(crate) fn delete_in_tree(&mut self, tree: &Tree, key: &Short) -> Result<(), TreeErr>
        ensures { IsMade (Does (tree_delete tree.now.lo tree.now.hi key.now)) (Stages (tree_delete tree.now.lo tree.now.hi key.now)) self.old self.new result }
    {
        match &mut self.staging {
            None => self.store.tree_delete(tree, key),
            Some(transaction) => self.store.tree_delete_within(transaction, tree, key),
        }
    }

    // The value of a key of a tree.
    pub(crate) fn get_in_tree(&mut self, tree: &Tree, key: &Short) -> Result<Option<Short>, TreeErr>
        ensures { IsMade (Does (tree_get tree.now.lo tree.now.hi key.now)) (Stages (tree_get tree.now.lo tree.now.hi key.now)) self.old self.new result }
    {
        match &mut self.staging {
            None => self.store.tree_get(tree, key),
            Some(transaction) => self.store.tree_get_within(transaction, tree, key),
        }
    }

    // The pairs of a tree whose keys are not below `from` and are below `to`.
    pub(crate) fn range_in_tree(
        &mut self,
        tree: &Tree,
        from: &Short,
        to: &Short,
    ) -> Result<Vec<(Short, Short)>, TreeErr>
        ensures { IsMade (Does (tree_range tree.now.lo tree.now.hi from.now to.now)) (Stages (tree_range tree.now.lo tree.now.hi from.now to.now)) self.old self.new (seen_as pairs_of result) }
    {
        match &mut self.staging {
            None => self.store.tree_range(self.alloc, tree, from, to),
            Some(transaction) => {
                self.store
                    .tree_range_within(transaction, self.alloc, tree, from, to)
            }
        }
    }

    // Gives a key of a hash file this value.
    pub(crate) fn put_in_hash(
        &mut self,
        file: &HashFile,
        key: &Short,
        value: &Short,
    ) -> Result<(), HashErr>
        ensures { IsMade (Does (hash_put file.now.lo file.now.hi key.now value.now)) (Stages (hash_put file.now.lo file.now.hi key.now value.now)) self.old self.new result }
    {
        match &mut self.staging {
            None => self.store.hash_put(file, key, value),
            Some(transaction) => self.store.hash_put_within(transaction, file, key, value),
        }
    }

    // Deletes a key of a hash file, and its value.
    pub(crate) fn delete_in_hash(&mut self, file: &HashFile, key: &Short) -> Result<(), HashErr>
        ensures { IsMade (Does (hash_delete file.now.lo file.now.hi key.now)) (Stages (hash_delete file.now.lo file.now.hi key.now)) self.old self.new result }
    {
        match &mut self.staging {
            None => self.store.hash_delete(file, key),
            Some(transaction) => self.store.hash_delete_within(transaction, file, key),
        }
    }

    // The value of a key of a hash file.
    pub(crate) fn get_in_hash(
        &mut self,
        file: &HashFile,
        key: &Short,
    ) -> Result<Option<Short>, HashErr>
        ensures { IsMade (Does (hash_get file.now.lo file.now.hi key.now)) (Stages (hash_get file.now.lo file.now.hi key.now)) self.old self.new result }
    {
        match &mut self.staging {
            None => self.store.hash_get(file, key),
            Some(transaction) => self.store.hash_get_within(transaction, file, key),
        }
    }

    // Gives a key of a map this value.
    pub(crate) fn set_in_map(&mut self, map: &Map, key: Text, value: Text) -> Result<(), MapErr>
        ensures { IsMade (Does (map_set map.now.lo map.now.hi key value)) (Stages (map_set map.now.lo map.now.hi key value)) self.old self.new result }
    {
        match &mut self.staging {
            None => self.store.map_set(self.alloc, map, key, value),
            Some(transaction) => {
                self.store
                    .map_set_within(transaction, self.alloc, map, key, value)
            }
        }
    }

    // Deletes a key of a map, and its value.
    pub(crate) fn delete_in_map(&mut self, map: &Map, key: &[u8]) -> Result<(), MapErr>
        ensures { IsMade (Does (map_delete map.now.lo map.now.hi key.now)) (Stages (map_delete map.now.lo map.now.hi key.now)) self.old self.new result }
    {
        match &mut self.staging {
            None => self.store.map_delete(self.alloc, map, key),
            Some(transaction) => self
                .store
                .map_delete_within(transaction, self.alloc, map, key),
        }
    }

    // The value of a key of a map.
    pub(crate) fn get_in_map(&mut self, map: &Map, key: &[u8]) -> Result<Option<Vec<u8>>, MapErr>
        ensures { IsMade (Does (map_get map.now.lo map.now.hi key.now)) (Stages (map_get map.now.lo map.now.hi key.now)) self.old self.new (seen_as bytes_of result) }
    {
        match &mut self.staging {
            None => self.store.map_get(self.alloc, map, key),
            Some(transaction) => self.store.map_get_within(transaction, self.alloc, map, key),
        }
    }

    // How many pairs of a map have keys from `from` on and below `to`.
    pub(crate) fn count_in_map(
        &mut self,
        map: &Map,
        from: &[u8],
        to: Option<&[u8]>,
    ) -> Result<u64, MapErr>
        ensures { IsMade (Does (map_count map.now.lo map.now.hi (record { from = from.now; to = option_map (λ end. end.now) to.entry }))) (Stages (map_count map.now.lo map.now.hi (record { from = from.now; to = option_map (λ end. end.now) to.entry }))) self.old self.new result }
    {
        match &mut self.staging {
            None => self.store.map_count(self.alloc, map, from, to),
            Some(transaction) => {
                self.store
                    .map_count_within(transaction, self.alloc, map, from, to)
            }
        }
    }

    // The first of them, at most so many.
    pub(crate) fn range_in_map(
        &mut self,
        map: &Map,
        from: &[u8],
        to: Option<&[u8]>,
        most: u32,
    ) -> Result<Vec<(ByteList, ByteList)>, MapErr>
        ensures { IsMade (Does (map_range map.now.lo map.now.hi (record { from = from.now; to = option_map (λ end. end.now) to.entry }) most)) (Stages (map_range map.now.lo map.now.hi (record { from = from.now; to = option_map (λ end. end.now) to.entry }) most)) self.old self.new (seen_as pairs_of result) }
    {
        match &mut self.staging {
            None => self.store.map_range(self.alloc, map, from, to, most),
            Some(transaction) => {
                self.store
                    .map_range_within(transaction, self.alloc, map, from, to, most)
            }
        }
    }

    // The last of them, by falling key, at most so many.
    pub(crate) fn back_in_map(
        &mut self,
        map: &Map,
        from: &[u8],
        to: Option<&[u8]>,
        most: u32,
    ) -> Result<Vec<(ByteList, ByteList)>, MapErr>
        ensures { IsMade (Does (map_back map.now.lo map.now.hi (record { from = from.now; to = option_map (λ end. end.now) to.entry }) most)) (Stages (map_back map.now.lo map.now.hi (record { from = from.now; to = option_map (λ end. end.now) to.entry }) most)) self.old self.new (seen_as pairs_of result) }
    {
        match &mut self.staging {
            None => self.store.map_back(self.alloc, map, from, to, most),
            Some(transaction) => {
                self.store
                    .map_back_within(transaction, self.alloc, map, from, to, most)
            }
        }
    }

    // The first pair of a map above a key.
    pub(crate) fn next_in_map(
        &mut self,
        map: &Map,
        key: &[u8],
    ) -> Result<Vec<(ByteList, ByteList)>, MapErr>
        ensures { IsMade (Does (map_next map.now.lo map.now.hi key.now)) (Stages (map_next map.now.lo map.now.hi key.now)) self.old self.new (seen_as pairs_of result) }
    {
        match &mut self.staging {
            None => self.store.map_next(self.alloc, map, key),
            Some(transaction) => self
                .store
                .map_next_within(transaction, self.alloc, map, key),
        }
    }

    // The last pair of a map below a key, or of all where none is given.
    pub(crate) fn prev_in_map(
        &mut self,
        map: &Map,
        key: Option<&[u8]>,
    ) -> Result<Vec<(ByteList, ByteList)>, MapErr>
        ensures { IsMade (Does (map_prev map.now.lo map.now.hi (option_map (λ key. key.now) key.entry))) (Stages (map_prev map.now.lo map.now.hi (option_map (λ key. key.now) key.entry))) self.old self.new (seen_as pairs_of result) }
    {
        match &mut self.staging {
            None => self.store.map_prev(self.alloc, map, key),
            Some(transaction) => self
                .store
                .map_prev_within(transaction, self.alloc, map, key),
        }
    }

    // Steps of an application.
    pub(crate) fn run_app(&mut self, app: &App, most: u64) -> Result<u64, ExecErr>
        ensures { IsMade (DoesRun (step_of app.now.app) most) (StagesRun (step_of app.now.app) most) self.old self.new result }
    {
        match &mut self.staging {
            None => self.store.app_run(app, most),
            Some(transaction) => self.store.app_run_within(transaction, app, most),
        }
    }

    // Steps of an interpreted application.
    pub(crate) fn run_program(&mut self, app: &ProgApp, most: u64) -> Result<u64, ExecErr>
        ensures { IsMade (DoesRun (program_step app.now.app app.now.program) most) (StagesRun (program_step app.now.app app.now.program) most) self.old self.new result }
    {
        match &mut self.staging {
            None => self.store.program_run(app, most),
            Some(transaction) => self.store.program_run_within(transaction, app, most),
        }
    }
}
