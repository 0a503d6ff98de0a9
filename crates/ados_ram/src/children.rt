// The objects of a directory, in the order of their names. They are kept in blocks, which versions share.
ghost use Rattle.std.specs.{Prelude.{◌≡◌, ◌+◌, ◌≤◌, ◌++◌, ◌==◌, [], length, IfOk, IfSome, OnOk, IsTrue}, Option.{option_copied}};
ghost use Rattle.std.specs.FinMap as map;
ghost use Rattle.ados_text.specs.{Text.{folded_text}, Name.{name_cmp}};
ghost use Rattle.ados_ram.specs.{Tree.{replace_kid, branch_rows, rows_found}, Blocks.{all_kids, AllFull, AreBlocks, IsBlockOf}};

use crate::branches::Branch;
use crate::kids::{begins_by, changed, kid_at, share_kids};
use ados_text::{Name, NoMemory};
use std::alloc::Global;
use std::marker::Model;
use std::rc::Rc;

// A block of more objects than this, and more than the directory has blocks, is split: so a change of a large directory
// goes through as many blocks as a block has objects.
const BLOCK_LIMIT: usize = 32;

/// The objects of a directory. A change replaces one block; the others are shared.
#[cycle(tree)]
#[derive(Drop)]
pub struct Children {
    blocks: Vec<Block>,
}

/// Some consecutive objects of a directory.
#[cycle(tree)]
#[derive(Drop)]
pub struct Block {
    kids: Rc<Vec<Branch>>,
}

impl Model for Children {
    ghost use Rattle.std.specs.{Prelude.{◌+◌, ◌*◌, length}, Coded.{coded_list}};
    ghost use Rattle.ados_ram.specs.{Tree.{Kids, coded_kid, flatten}, Blocks.{all_kids, AreBlocks}};

    ghost Value = { Kids };

    ghost coded = { coded_list coded_kid };

    ghost view = { λ c. all_kids c.blocks.items };

    ghost invariant = { λ c. AreBlocks c.blocks.items };

    ghost size = { λ ks. 3 * length (flatten ks) + 2 };

    ghost use Rattle.ados_ram.specs.Falls.{falls-children};

    ghost size_decreases = { λ a h. falls-children a };
}

impl Model for Block {
    ghost use Rattle.std.specs.{Prelude.{◌+◌, ◌*◌, length}, Coded.{coded_list}};
    ghost use Rattle.ados_ram.specs.Tree.{Kids, coded_kid, flatten};

    ghost Value = { Kids };

    ghost coded = { coded_list coded_kid };

    ghost view = { λ b. b.kids.value.items };

    ghost size = { λ ks. 3 * length (flatten ks) + 1 };

    ghost use Rattle.ados_ram.specs.Falls.{falls-block};

    ghost size_decreases = { λ a h. falls-block a };
}

impl Block {
    fn new(kids: Vec<Branch>) -> Result<Block, NoMemory>
        ensures { IfOk result (λ block. block ≡ kids.items) }
    {
        Ok(Block {
            kids: Rc::new(*kids.allocator(), kids)?,
        })
    }

    fn share(&self) -> Result<Block, NoMemory>
        ensures { IfOk result (λ block. block ≡ self.now) }
    {
        Ok(Block {
            kids: self.kids.clone()?,
        })
    }

    fn kids(&self) -> &[Branch]
        ensures { result.now ≡ self.now }
    {
        &self.kids
    }
}

impl Children {
    /// No objects.
    pub fn none(alloc: Global) -> Children
        ensures { result ≡ [] }
    {
        Children {
            blocks: Vec::new(alloc),
        }
    }

    /// These objects.
    pub fn of(kids: Vec<Branch>) -> Result<Children, NoMemory>
        requires { IsTrue (map.is_sorted name_cmp kids.items) }
        ensures { IfOk result (λ children. children ≡ kids.items) }
    {
        let mut blocks = Vec::new(*kids.allocator());
        push_block(&mut blocks, kids, 1)?;
        Ok(Children { blocks })
    }

    /// The same objects, shared.
    pub fn share(&self) -> Result<Children, NoMemory>
        ensures { IfOk result (λ children. children ≡ self.now) }
    {
        let mut blocks = Vec::with_capacity(self.allocator(), self.blocks.len())?;
        share_blocks(&mut blocks, &self.blocks)?;
        Ok(Children { blocks })
    }

    /// The allocator.
    pub fn allocator(&self) -> Global {
        *self.blocks.allocator()
    }

    /// Whether there are none.
    pub fn is_empty(&self) -> bool
        ensures { result ≡ (length self.now == 0) }
    {
        self.blocks.is_empty()
    }

    /// The object of this name.
    pub fn find(&self, name: &Name) -> Option<&Branch>
        ensures name { IfSome result (λ kid. kid.now.0 ≡ folded_text name.now) }
        ensures rows { branch_rows (option_copied result) ≡ rows_found (map.find name_cmp (folded_text name.now) self.now) }
    {
        match self.blocks.get(block_of(&self.blocks, name)) {
            None => None,
            Some(block) => kid_at(block.kids(), name),
        }
    }

    /// All objects, each shared.
    pub fn each(&self) -> Result<Vec<Branch>, NoMemory>
        ensures { IfOk result (λ kids. kids.items ≡ self.now) }
    {
        let mut kids = Vec::new(self.allocator());
        for block in &self.blocks {
            share_kids(&mut kids, block.kids())?;
        }
        Ok(kids)
    }

    /// The objects with another one of this name, or none.
    pub fn with(&self, name: &Name, new: Option<Branch>) -> Result<Children, NoMemory>
        requires { IfSome new (λ kid. kid.0 ≡ folded_text name.now) }
        ensures { IfOk result (λ children. children ≡ replace_kid (folded_text name.now) new self.now) }
    {
        let at = block_of(&self.blocks, name);
        let count = self.blocks.len();
        let (before, rest) = self.blocks.split_at(at);
        let mut blocks = Vec::with_capacity(self.allocator(), count + 1)?;
        share_blocks(&mut blocks, before)?;
        let Some((block, after)) = rest.split_first() else {
            push_block(
                &mut blocks,
                changed(self.allocator(), &[], name, new)?,
                count,
            )?;
            return Ok(Children { blocks });
        };
        push_block(
            &mut blocks,
            changed(self.allocator(), block.kids(), name, new)?,
            count,
        )?;
        share_blocks(&mut blocks, after)?;
        Ok(Children { blocks })
    }
}

// Which block holds a name, or is to hold it. Most directories have one block, and no name has to be compared to choose it.
fn block_of(blocks: &[Block], name: &Name) -> usize
    requires { AreBlocks blocks.now }
    ensures within { result ≤ length blocks.now }
    ensures parted { IsBlockOf (folded_text name.now) blocks.now result }
{
    if blocks.len() < 2 {
        return 0;
    }
    blocks
        .partition_point(|block| begins_by(block.kids(), name))
        .saturating_sub(1)
}

// Appends blocks, shared.
fn share_blocks(out: &mut Vec<Block>, blocks: &[Block]) -> Result<(), NoMemory>
    ensures { OnOk result (out.new.items ≡ out.old.items ++ blocks.now) }
{
    for block in blocks {
        out.push(block.share()?)?;
    }
    Ok(())
}

// Appends objects as a block of a directory that has so many, or as two if they are too many for one; no objects add no
// block.
fn push_block(out: &mut Vec<Block>, kids: Vec<Branch>, count: usize) -> Result<(), NoMemory>
    requires { AllFull out.old.items }
    ensures kids { OnOk result (all_kids out.new.items ≡ all_kids out.old.items ++ kids.items) }
    ensures full { OnOk result (AllFull out.new.items) }
{
    if kids.is_empty() {
        return Ok(());
    }
    let mut kids = kids;
    let limit = BLOCK_LIMIT.max(count);
    if kids.len() > limit {
        let upper = kids.split_off(limit / 2)?;
        out.push(Block::new(kids)?)?;
        out.push(Block::new(upper)?)?;
        return Ok(());
    }
    out.push(Block::new(kids)?)?;
    Ok(())
}
