//! What holds of every action beneath a root.
ghost use Rattle.std.specs.Prelude.{◌≡◌, ℕ, Bool, false, List, Option, Some};
ghost use Rattle.std.specs.Option.{option_map};
ghost use Rattle.std.specs.FinMap as map;
ghost use Rattle.uxn_io_traits.specs.Files.{Nodes};
ghost use Rattle.uxn_io_traits.specs.Outside.{Change, files_by};
ghost use Rattle.file_ports.specs.RootPart.{below, parent_is_folder, LieIn};
ghost use Rattle.file_ports.specs.Device.{FileState, suits, Suits};
ghost use Rattle.file_ports.specs.Actions.{FileAction, act, acts, observed_file};
ghost use Rattle.file_ports.specs.AnswersAction.{file_outcome_of};

/// Of a whole tree an action of a device that suits its root sees the root part alone. It changes files in the root part
/// alone, and leaves a device that suits the root. Such changes change the root part as they change the whole tree; the
/// root's parent stays what it is, and so does the node at every other path.
pub fn actions_keep_to_the_root()
    ensures observed { (action : FileAction) (root : Option (List ℕ)) (nodes : Nodes) (device : FileState) (memory : List ℕ) → Suits root device
        → file_outcome_of action root nodes device memory ≡ acts action root device memory (option_map (observed_file nodes) device.path) }
    ensures changes { (action : FileAction) (root : Option (List ℕ)) (part : Nodes) (parent : Bool) (device : FileState) (memory : List ℕ)
        → Suits root device → LieIn root (act action root part parent device memory).changes }
    ensures suits { (action : FileAction) (root : Option (List ℕ)) (part : Nodes) (parent : Bool) (device : FileState) (memory : List ℕ)
        → Suits root device → Suits root (act action root part parent device memory).device }
    ensures part { (root : Option (List ℕ)) (changes : List Change) (nodes : Nodes)
        → LieIn root changes → below root (files_by nodes changes) ≡ files_by (below root nodes) changes }
    ensures parent { (root : Option (List ℕ)) (changes : List Change) (nodes : Nodes)
        → LieIn root changes → parent_is_folder root (files_by nodes changes) ≡ parent_is_folder root nodes }
    ensures outside { (root : Option (List ℕ)) (path : List ℕ) (changes : List Change) (nodes : Nodes)
        → LieIn root changes → suits root (Some path) ≡ false → map.get (files_by nodes changes) path ≡ map.get nodes path }
{}
