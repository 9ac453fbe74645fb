// The labels that wait to stand for a label in the entries of a phi.
ghost use Rattle.std.specs.Prelude.{◌≡◌, ℕ, ◌++◌, ◌∷◌, [], List, cond, true, false, IfOk, OnOk};
ghost use Rattle.count_insert.specs.Lists.{AreAway, first_or, news_for, queue_at, without};
ghost use Rattle.ir_tree.specs.Names.{same};

use indexmap::IndexMap;
use ir_tree::Name;
use pgo_base::NoMemory;
use std::alloc::Global;
use std::collections::VecDeque;
use std::mem;

#[derive(Drop)]
pub(crate) struct Queues {
    labels: IndexMap<Name, VecDeque<Name>>,
}

impl Queues {
    fn new(alloc: Global) -> Queues
        ensures { (l : List ℕ) → queue_at result l ≡ [] }
    {
        Queues {
            labels: IndexMap::new(alloc),
        }
    }

    // The queue of each label that is renamed.
    pub(crate) fn of(alloc: Global, news: &[(Name, Name)]) -> Result<Queues, NoMemory>
        ensures { IfOk result (λ queues. (l : List ℕ) → queue_at queues l ≡ news_for l news.now) }
    {
        let mut queues = Queues::new(alloc);
        for (label, new) in news {
            queues.push(alloc, label, new.copy(alloc)?)?;
        }
        Ok(queues)
    }

    fn push(&mut self, alloc: Global, label: &Name, new: Name) -> Result<(), NoMemory>
        ensures { OnOk result ((l : List ℕ) → queue_at self.new l ≡ cond (same label.now l) (queue_at self.old label.now ++ new ∷ []) (queue_at self.old l)) }
    {
        let mut queue = match self.labels.swap_remove(label.bytes()) {
            Some(queue) => queue,
            None => VecDeque::new(alloc),
        };
        queue.push_back(new)?;
        self.labels.insert(label.copy(alloc)?, queue)?;
        Ok(())
    }

    fn is_waited_for(&self, label: &Name) -> bool
        ensures { result ≡ false → queue_at self.now label.now ≡ [] }
    {
        self.labels.get(label.bytes()).is_some()
    }

    // Whether no label waits for one that a renaming puts in.
    pub(crate) fn are_away(&self, news: &[(Name, Name)]) -> bool
        ensures { result ≡ true → AreAway (queue_at self.now) news.now }
    {
        for (_, new) in news {
            if self.is_waited_for(new) {
                return false;
            }
        }
        true
    }

    // Lets the first label that waits for this one stand for it.
    pub(crate) fn rename(&mut self, label: &mut Name) -> Result<(), NoMemory>
        ensures named { OnOk result (label.new ≡ first_or label.old (queue_at self.old label.old)) }
        ensures taken { OnOk result ((l : List ℕ) → queue_at self.new l ≡ without (queue_at self.old) label.old l) }
    {
        let mut queue = match self.labels.swap_remove(label.bytes()) {
            Some(queue) => queue,
            None => return Ok(()),
        };
        if let Some(new) = queue.pop_front() {
            let old = mem::replace(label, new);
            self.labels.insert(old, queue)?;
        }
        Ok(())
    }
}
