//! What holds of each answer.

ghost use Rattle.std.specs.Prelude.{◌≡◌, List, [], codes};
ghost use Rattle.http.specs.declared.request.Parts.{Parts};
ghost use Rattle.page_files.specs.declared.page_file.PageFile.{PageFile};
ghost use Rattle.page_answers.specs.Laws.{LeadsInside};
ghost use Rattle.page_answers.specs.PageAnswer.{page_answer};

/// No path leads out of the files: what is sent is one of three fixed texts, or all bytes of the file whose name the path has
/// behind its slash, byte for byte, or of its compressed form, which stands under that name with `.gz` behind it.
pub fn no_path_leads_out()
    ensures { (files : List PageFile) (head : Parts) → LeadsInside files head (page_answer files head) }
{}

/// Nothing but a head is sent to HEAD.
pub fn head_gets_no_body()
    ensures { (files : List PageFile) (head : Parts) → head.method ≡ codes "HEAD" → (page_answer files head).body ≡ [] }
{}
