ghost use Rattle.std.specs.Prelude.{◌≡◌, map};
ghost use Rattle.dl_text.specs.Outcomes.{seen};
ghost use Rattle.owl_read.specs.Annotations.{one_at, two_at, three_at, some_at};
ghost use Rattle.owl_read.specs.Items.{item_of};
ghost use Rattle.owl_read.specs.Outcomes.{Gives};

use crate::annotations::behind;
use crate::outcomes::refused;
use crate::scope::Scope;
use dl_text::{ReadKind, ReadRefusal};
use owl_syntax::Node;

impl Scope {
    /// The one node behind the annotations, which are read.
    #[tactic(auto, unfolding(crate::specs::Annotations::one_at))]
    pub fn one<'a, 'b>(
        &mut self,
        line: u64,
        args: &'a [Node<'b>],
    ) -> Result<&'a Node<'b>, ReadRefusal>
        ensures { Gives self.new (seen (λ node. item_of node.now) result) (one_at self.old line (map item_of args.now)) }
    {
        match behind(args) {
            [one] => {
                self.annotations(args)?;
                Ok(one)
            }
            _ => Err(refused(line, ReadKind::Syntax)),
        }
    }

    /// The two nodes behind the annotations.
    #[tactic(auto, unfolding(crate::specs::Annotations::two_at))]
    pub fn two<'a, 'b>(
        &mut self,
        line: u64,
        args: &'a [Node<'b>],
    ) -> Result<(&'a Node<'b>, &'a Node<'b>), ReadRefusal>
        ensures { Gives self.new (seen (λ nodes. (item_of nodes.0.now, item_of nodes.1.now)) result) (two_at self.old line (map item_of args.now)) }
    {
        match behind(args) {
            [one, two] => {
                self.annotations(args)?;
                Ok((one, two))
            }
            _ => Err(refused(line, ReadKind::Syntax)),
        }
    }

    /// The three nodes behind the annotations.
    #[tactic(auto, unfolding(crate::specs::Annotations::three_at))]
    pub fn three<'a, 'b>(
        &mut self,
        line: u64,
        args: &'a [Node<'b>],
    ) -> Result<(&'a Node<'b>, &'a Node<'b>, &'a Node<'b>), ReadRefusal>
        ensures { Gives self.new (seen (λ nodes. (item_of nodes.0.now, item_of nodes.1.now, item_of nodes.2.now)) result) (three_at self.old line (map item_of args.now)) }
    {
        match behind(args) {
            [one, two, three] => {
                self.annotations(args)?;
                Ok((one, two, three))
            }
            _ => Err(refused(line, ReadKind::Syntax)),
        }
    }

    /// The nodes behind the annotations, which are two or more.
    #[tactic(auto, unfolding(crate::specs::Annotations::some_at))]
    pub fn some<'a, 'b>(
        &mut self,
        line: u64,
        args: &'a [Node<'b>],
    ) -> Result<&'a [Node<'b>], ReadRefusal>
        ensures { Gives self.new (seen (λ nodes. map item_of nodes.now) result) (some_at self.old line (map item_of args.now)) }
    {
        let rest = behind(args);
        if rest.len() < 2 {
            return Err(refused(line, ReadKind::Syntax));
        }
        self.annotations(args)?;
        Ok(rest)
    }
}
