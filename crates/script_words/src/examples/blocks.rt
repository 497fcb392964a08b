//! Worked examples of UF2 blocks, proved by computing: both sides of a whole page, the line of a
//! block each way, and blocks that no line in words gives.

ghost use Rattle.std.specs.Prelude.{◌≡◌, [], ◌∷◌, ◌++◌, None, Ok, Some, codes, replicate};
ghost use Rattle.boot_script.specs.Events.{Uf2};
ghost use Rattle.script_words.specs.declared.rows.Row.TheVariants as rows;
ghost use Rattle.script_words.specs.Values.{Bytes, Number, Plain, said};
ghost use Rattle.script_words.specs.Made.{made, page_of};
ghost use Rattle.script_words.specs.Naming.{line_of};
ghost use Rattle.script_words.specs.Examples.{block_bytes, block_says, listed, read};

/// A page has 256 bytes, and 0xff where the image has no more.
pub fn pages()
    ensures one_less { page_of (replicate 255 0x77) ≡ replicate 255 0x77 ++ (0xff ∷ []) }
    ensures whole { page_of (replicate 256 0x77) ≡ replicate 256 0x77 }
    ensures one_more { page_of (replicate 256 0x77 ++ (0x78 ∷ [])) ≡ replicate 256 0x77 }
{}

/// The line of a block: what is read of it, the block that it gives, and how this is listed. The
/// page of the last of an image's three bytes.
pub fn lines_of_blocks()
    ensures read { read
        (codes "uf2 0 of 2 at 0x10000000 family=rp2350-arm-s " ++ replicate 512 0x37)
        ≡ Ok (said rows.Block (block_says (Bytes (replicate 256 0x77) ∷ [])) None) }
    ensures gives { made rows.Block (block_says (Bytes (replicate 256 0x77) ∷ [])) 1 []
        ≡ Some (Uf2 (block_bytes 0x2000 256 (replicate 256 0x77) 0)) }
    ensures listed { listed (Uf2 (block_bytes 0x2000 256 (replicate 256 0x77) 0))
        ≡ codes "uf2 0 of 2 at 0x10000000 family=rp2350-arm-s " ++ replicate 512 0x37 }
    ensures of_image { read (codes "uf2 0 of 2 at 0x10000000 family=0xe48bff59 image 0x2")
        ≡ Ok (said rows.ImageBlock (block_says (Plain ∷ Number 2 ∷ [])) None) }
    ensures rest_of_image { made rows.ImageBlock (block_says (Plain ∷ Number 2 ∷ [])) 1
        (7 ∷ 8 ∷ 9 ∷ []) ≡ Some (Uf2 (block_bytes 0x2000 256 (9 ∷ replicate 255 0xff) 0)) }
    ensures end_of_image { made rows.ImageBlock (block_says (Plain ∷ Number 3 ∷ [])) 1
        (7 ∷ 8 ∷ 9 ∷ []) ≡ None }
{}

/// Blocks that no line in words gives: with another flag, with another payload size, and with a
/// byte behind their page.
pub fn blocks_by_bytes()
    ensures flag { line_of 1 (Uf2 (block_bytes 0x2001 256 (replicate 256 0x77) 0))
        ≡ said rows.RawBlock (Bytes (block_bytes 0x2001 256 (replicate 256 0x77) 0) ∷ []) None }
    ensures payload { line_of 1 (Uf2 (block_bytes 0x2000 255 (replicate 256 0x77) 0))
        ≡ said rows.RawBlock (Bytes (block_bytes 0x2000 255 (replicate 256 0x77) 0) ∷ []) None }
    ensures behind { line_of 1 (Uf2 (block_bytes 0x2000 256 (replicate 256 0x77) 1))
        ≡ said rows.RawBlock (Bytes (block_bytes 0x2000 256 (replicate 256 0x77) 1) ∷ []) None }
{}
